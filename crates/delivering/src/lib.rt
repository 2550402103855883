// What one site does with one message that is delivered to it: the effect is planned by value, then applied.
#![tactic(auto)]

pub mod deliver;
pub mod effect;
pub mod marks;
pub mod owns;
pub mod reply;
pub mod table;
