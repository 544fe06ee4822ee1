// What tables are ordered by: commitments, members' keys, shard indices and epochs. Of the first three, equal is the same. Each
// `compare` is the derived order; a table asks for no `Ord`, which would owe `Eq` and `PartialOrd` too.
ghost use Rattle.register.specs.Order.{order};
ghost use Rattle.std.specs.Ordering.{nat_cmp};
ghost use Rattle.register.specs.ByteOrder.{order_reverses, order_ascends, order_ties, order_same};
ghost use Rattle.register.specs.Made.{commitment_made, key_made};
ghost use Rattle.std.proofs.Common.{ap, rules};

use crate::commitment::Commitment;
use crate::counters::Epoch;
use crate::key::Key;
use std::cmp::Ordering;
use table::{Exact, Ordered};

// A shard's index.
#[derive(Clone, Copy, PartialEq, Eq, PartialOrd, Ord, Debug)]
pub struct Index(pub u16);

impl Ordered for Commitment {
    ghost order = { λ a b. order a.bytes b.bytes };

    ghost reverses = { λ a b. order_reverses a.bytes b.bytes };

    ghost ascends = { λ a b c. order_ascends a.bytes b.bytes c.bytes };

    ghost ties = { λ a b c. order_ties a.bytes b.bytes c.bytes };

    fn compare(&self, other: &Commitment) -> Ordering {
        Commitment::compare(self, other)
    }
}

impl Exact for Commitment {
    ghost same = { unfold commitment_made in λ a b e. ap commitment_made (order_same a.bytes b.bytes e) };
}

impl Ordered for Key {
    ghost order = { λ a b. order a.bytes b.bytes };

    ghost reverses = { λ a b. order_reverses a.bytes b.bytes };

    ghost ascends = { λ a b c. order_ascends a.bytes b.bytes c.bytes };

    ghost ties = { λ a b c. order_ties a.bytes b.bytes c.bytes };

    fn compare(&self, other: &Key) -> Ordering {
        Key::compare(self, other)
    }
}

impl Exact for Key {
    ghost same = { unfold key_made in λ a b e. ap key_made (order_same a.bytes b.bytes e) };
}

impl Ordered for Index {
    ghost order = { λ a b. nat_cmp a.0 b.0 };

    ghost reverses = { Prim.search rules };

    ghost ascends = { Prim.search rules };

    ghost ties = { Prim.search rules };

    fn compare(&self, other: &Index) -> Ordering {
        self.cmp(other)
    }
}

impl Exact for Index {
    ghost same = { Prim.search rules };
}

impl Ordered for Epoch {
    ghost order = { λ a b. nat_cmp a.0 b.0 };

    ghost reverses = { Prim.search rules };

    ghost ascends = { Prim.search rules };

    ghost ties = { Prim.search rules };

    fn compare(&self, other: &Epoch) -> Ordering {
        self.cmp(other)
    }
}
