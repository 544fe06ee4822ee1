// What a coding scheme means: which shards are good, and what a list of them opens to.
#![tactic(auto)]

pub mod coding;
pub mod fault;
pub mod piece;
pub mod scheme;
