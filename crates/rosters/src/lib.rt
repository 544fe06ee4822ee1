// Who takes part in each epoch: the members' keys, whose places are their indices, and this node's own index.
#![tactic(auto)]

pub mod epochs;
pub mod fault;
pub mod members;
pub mod roster;
pub mod single;
#[cfg(test)]
mod tests;
