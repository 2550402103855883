// The rule book: which rules there are, which cards each reads and writes, and what it answers.
#![tactic(auto)]

pub mod fault;
pub mod rules;
