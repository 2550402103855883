// The whole steps at a site: a start, a delivery and a settlement, each decided first and then done.
#![tactic(auto)]

pub mod deliver;
mod landing;
pub mod numbers;
pub mod settle;
pub mod start;
mod view;
