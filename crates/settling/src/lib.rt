// What a site does when one of its transactions is to be settled.
#![tactic(auto)]

pub mod doubt;
pub mod settle;
pub mod tell;
