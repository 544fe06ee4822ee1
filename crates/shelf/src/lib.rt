// The records of a node: an ordered table of commitments, and the records in slots that never move.
#![tactic(auto)]

pub mod example;
pub mod shelf;
