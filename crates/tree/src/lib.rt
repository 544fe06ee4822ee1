// What coding schemes with a hash tree share: the length frame, the tree over payloads, and the path that a shard carries.
#![tactic(auto)]

pub mod frame;
pub mod law;
pub mod path;
