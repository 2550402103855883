// What a site does when a transaction is started there.
#![tactic(auto)]

pub mod answer;
mod cards;
mod drafting;
mod messages;
mod reading;
pub mod sending;
pub mod start;
pub mod step;
