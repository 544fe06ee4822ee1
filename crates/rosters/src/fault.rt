// Why a roster is not made, or an epoch not filed.

#[derive(Clone, Copy, PartialEq, Eq, Debug)]
pub enum Fault {
    // more than 64 keys
    TooManyKeys,
    // a key is not above the one before it
    NotAscending,
    // the node's own key is none of the keys
    OwnNotMember,
    // sixteen epochs are filed
    TooManyEpochs,
    // the epoch is filed
    EpochTwice,
}
