// The primary of one card of the date book as the arrivals program plays it.
#![tactic(auto)]

pub mod play;
mod primary;
mod register;
pub mod reply;
mod show;
