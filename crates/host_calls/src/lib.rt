// What a program in C may call: the check of one script line, and the comparison of two dates.
#![tactic(auto)]

pub mod dates;
pub mod line;
