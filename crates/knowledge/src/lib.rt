// One site: what it knows of a card from its own lines and verdicts, and the primary's check.
#![tactic(auto)]

pub mod check;
pub mod judge;
pub mod verdicts;
pub mod versions;
pub mod view;
