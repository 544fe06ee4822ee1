// What a call answers.
use reconstruct::error::Error;

// How a call ended; a completion tells its number.
#[derive(Clone, Copy, PartialEq, Eq, Debug)]
pub enum Outcome {
    NoEpoch,
    NoMember,
    OtherEpoch,
    LeaderStands,
    Declined,
    Held,
    Cached,
    Ignored,
    Boxed,
    NotBoxed,
    Gain,
    NoGain,
    Short(u16),
    Rebuilt(u16),
    Failed(u16, Error),
}

// Why a member is reported.
#[derive(Clone, Copy, PartialEq, Eq, Debug)]
pub enum Reason {
    // the sender is no member of the record's epoch
    Stranger,
    // the index is neither the assigned one nor the sender's
    WrongIndex,
    // another shard was received at this index
    Equivocation,
    // the assigned shard is bad
    BadAssigned,
    // a pending shard was found bad by a job
    BadPending,
}

// Why a call was turned down; nothing has changed then.
#[derive(Clone, Copy, PartialEq, Eq, Debug)]
pub enum Refusal {
    Limit,
    Memory,
    Malformed,
    ShardLength,
    Keys,
    Room,
    NoJob,
    NoBlock,
    Buffer,
}
