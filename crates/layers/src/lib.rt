// Hash, scheme, block kind and roster as one thing that an engine's calls are lent.
#![tactic(auto)]

pub mod node;
pub mod together;
