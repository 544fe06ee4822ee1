// Intake: what one shard does to the record that it is for.
#![tactic(auto)]

pub mod arrive;
pub mod class;
pub mod received;
pub mod taken;
