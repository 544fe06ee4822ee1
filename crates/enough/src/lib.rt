// The first promise: enough good shards bring the block, in every run.
#![tactic(auto)]

pub mod example;
pub mod first;
