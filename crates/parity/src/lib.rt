// The scheme Parity: pieces of a framed blob, and one more that is their exclusive or.
#![tactic(auto)]

pub mod coding;
mod framing;
pub mod law;
mod open;
mod picks;
#[cfg(test)]
mod tests;
