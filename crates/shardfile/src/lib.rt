// The shard file: what reached a node for one block, as text that a person can write and read.
#![tactic(auto)]

pub mod draft;
pub mod file;
pub mod hex;
pub mod parse;
