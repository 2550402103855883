// One site: what it refuses, its tables, its transactions' lines, and where they go.
#![tactic(auto)]

pub mod fault;
pub mod lines;
pub mod masks;
pub mod table;
