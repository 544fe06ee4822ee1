// Hash, scheme and block kind chosen at run time: one type for each, over its implementations.
#![tactic(auto)]

pub mod hashes;
pub mod kinds;
pub mod names;
pub mod schemes;
