// The rule books: counts and dates.
#![tactic(auto)]

pub mod date;
pub mod tally;
