// What carries messages between sites: the rule that every carrier keeps, and sending through any of them.
#![tactic(auto)]

pub mod carrier;
pub mod fault;
pub mod sending;
