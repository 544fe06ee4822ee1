// Where a record's shards lie.
ghost use Rattle.std.specs.Prelude.{◌≡◌, ℕ, ◌≤◌};

use register::ordered::Index;

// A slot by its number: it has 64 places for shards, of `width` bytes each. The memory itself is lent beside it: a struct
// that holds a `&mut` needs a clause on its ghost name in each contract, and is no plainer.
#[derive(Clone, Copy)]
pub struct Slot {
    pub number: usize,
    pub width: usize,
    pub ghost low: { number ≤ 16 },
    pub ghost narrow: { width ≤ 1024 },
}

impl Slot {
    ghost use Rattle.record.specs.Views.{place_of};

    // The place of the shard of an index.
    pub fn place(self, index: Index) -> usize
        ensures { result ≡ place_of self.number index.0 }
    {
        self.number * 64 + index.0 as usize
    }
}
