// A record: what a node keeps of one commitment, in fixed memory.
#![tactic(auto)]

pub mod filing;
pub mod jobs;
pub mod keeping;
pub mod record;
pub mod slot;
pub mod stored;
pub mod taking;
