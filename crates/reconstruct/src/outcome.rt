// How a reconstruction ends.
use crate::error::Error;
use block::kind::Reading;

// No `Result<Reading, Error>` with a third error: too few shards are no fault of the block, and more may come.
#[derive(Clone, Copy, Debug, PartialEq, Eq)]
pub enum Outcome {
    // Fewer than the minimum are good: how many.
    Insufficient(usize),
    Decoded(Result<Reading, Error>),
}
