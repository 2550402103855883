// Two carriers: the tray takes by place, the lanes by who sent to whom.
#![tactic(auto)]

pub mod choice;
pub mod lanes;
pub mod store;
pub mod tray;
