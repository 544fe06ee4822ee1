// What a block kind means, and which blobs fit a commitment.
#![tactic(auto)]

pub mod blob;
pub mod exact;
pub mod head;
pub mod kind;
