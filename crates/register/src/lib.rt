// What a node files shards under: commitments, and the counters and keys that go with them.
#![tactic(auto)]

pub mod bytes;
pub mod commitment;
pub mod counters;
pub mod key;
pub mod ordered;
pub mod words;
