// Shards that lie in a record's places: the one of index i in the i-th. A length beside an index, and no slice of the bytes,
// since the bytes lie in other memory that a C caller lends.
use register::key::Key;
use register::ordered::Index;
use table::Entry;

#[repr(C)]
#[derive(Clone, Copy)]
pub struct Stored {
    pub index: Index,
    pub len: u16,
}

impl Entry for Stored {
    type Key = Index;

    ghost named = { λ s. s.index };

    fn key(&self) -> &Index {
        &self.index
    }
}

// A shard with the key that sent it.
#[repr(C)]
#[derive(Clone, Copy)]
pub struct Pending {
    pub sender: Key,
    pub shard: Stored,
}

impl Entry for Pending {
    type Key = Key;

    ghost named = { λ p. p.sender };

    fn key(&self) -> &Key {
        &self.sender
    }
}
