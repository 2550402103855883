// The lines of a script: bytes gathered into lines, a line cut into fields, and the form of each line.
#![tactic(auto)]

pub mod arrival;
mod date;
pub mod field;
pub mod gather;
pub mod line;
mod number;
mod outcome;
pub mod pieces;
mod word;
