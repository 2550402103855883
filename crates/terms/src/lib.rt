// The terms of the method: virtual times, the modes of lines, the kinds of messages, marks, outcomes, what a refusal
// names, and lists of up to four.
#![tactic(auto)]

pub mod fault;
pub mod few;
pub mod kind;
pub mod mark;
pub mod mode;
pub mod number;
pub mod outcome;
pub mod time;
