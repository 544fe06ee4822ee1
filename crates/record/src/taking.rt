// A shard that a record takes in: one that waits for a job, and the assigned one, which has been checked.
ghost use Rattle.std.specs.Prelude.{◌≡◌, true, false};
ghost use Rattle.model.specs.Intake.{joined};
ghost use Rattle.record.specs.Joins.{Elsewhere, OpenTo, Placed, TakesIn, queued};
ghost use Rattle.record.specs.Sound.{SameJob, Sound};
ghost use Rattle.scheme.specs.Pieces.{indexed};

use crate::record::Record;
use crate::slot::Slot;
use register::key::Key;
use scheme::piece::Piece;

impl Record {
    // Before the block: the shard is received, and pending under its sender's key.
    pub fn wait(&mut self, shards: &mut [u8], slot: Slot, sender: &Key, shard: Piece<'_>)
        requires placed { Placed slot shards.old }
        requires fits { OpenTo slot.width self.old shard.index shard.bytes.now }
        requires before { self.old.cached ≡ false }
        ensures waits { TakesIn slot self.old self.new shards.old shards.new (indexed shard.entry) self.old.verified (queued (record { sender = sender.entry.now.bytes; shard = indexed shard.entry })) }
        ensures sound { Sound slot.width self.new }
        ensures job { SameJob self.old self.new }
        ensures elsewhere { Elsewhere slot.width slot.number shards.old shards.new }
    {
        let stored = self.keep(shards, slot, shard);
        self.join_pending(sender, stored);
    }

    // The assigned shard is good: it has contributed and is verified; before the block it is received and checked.
    pub fn verify(&mut self, shards: &mut [u8], slot: Slot, shard: Piece<'_>)
        requires placed { Placed slot shards.old }
        requires fits { OpenTo slot.width self.old shard.index shard.bytes.now }
        ensures verifies { TakesIn slot self.old self.new shards.old shards.new (indexed shard.entry) true (joined (indexed shard.entry)) }
        ensures sound { Sound slot.width self.new }
        ensures job { SameJob self.old self.new }
        ensures elsewhere { Elsewhere slot.width slot.number shards.old shards.new }
    {
        if self.cached {
            self.contributed[shard.index as usize] = true;
            self.verified = true;
            return;
        }
        let stored = self.keep(shards, slot, shard);
        self.verified = true;
        self.join_checked(stored);
    }
}
