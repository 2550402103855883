// What is stored and sent: cards, lines, verdicts, transactions and messages, generic over the value; and which used
// record counts as absent.
#![tactic(auto)]

pub mod card;
pub mod line;
pub mod message;
pub mod size;
pub mod transaction;
pub mod verdict;
