// The commands of a sitting's script: what each line asks for.
#![tactic(auto)]

pub mod command;
mod forms;
pub mod value;
mod word;
