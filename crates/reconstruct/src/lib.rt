// From shards to a block or a fault.
#![tactic(auto)]

pub mod coder;
pub mod error;
pub mod gather;
mod keep;
pub mod outcome;
