// How intake ends.
use model::answer::Reason;

// What goes out once the assigned shard is verified.
#[derive(Clone, Copy, Debug, PartialEq, Eq)]
pub enum Act {
    Broadcast,
    Ready,
}

#[derive(Clone, Copy, Debug, PartialEq, Eq)]
pub enum Taken {
    Dropped,
    // the sender is reported
    Rejected(Reason),
    // the record has a shard more
    Gained(Option<Act>),
}
