// Keeping a shard: its bytes in the place of its index, and the lists that it joins.
ghost use Rattle.std.specs.Prelude.{◌≡◌, ℕ, ◌+◌, ◌*◌, ◌<◌, ◌≤◌, true, length, take, drop, ◌≢◌, slice_set};
ghost use Rattle.places.specs.Places.{held};
ghost use Rattle.record.specs.Fields.{by_index, by_sender, index_named, sender_named, with_checked, with_pending, with_received};
ghost use Rattle.record.specs.Joins.{Placed};
ghost use Rattle.record.specs.Views.{place_of};
ghost use Rattle.table.specs.Table.{put};

use crate::filing::file;
use crate::record::Record;
use crate::slot::Slot;
use crate::stored::{Pending, Stored};
use register::key::Key;
use register::ordered::Index;
use scheme::piece::Piece;

impl Record {
    // Stores a shard's bytes: it is received, and its index has contributed.
    pub fn keep(&mut self, shards: &mut [u8], slot: Slot, shard: Piece<'_>) -> Stored
        requires within { shard.index < 64 }
        requires fits { length shard.bytes.now ≤ slot.width }
        requires placed { Placed slot shards.old }
        requires room { self.old.received_count < 64 }
        ensures stored { result ≡ record { index = record { 0 = shard.entry.index }; len = length shard.entry.bytes.now } }
        ensures stays { self.new ≡ with_received self.new.received self.new.received_count (slice_set self.old.contributed shard.entry.index true) self.old }
        ensures table { take self.new.received_count self.new.received ≡ put by_index index_named result (take self.old.received_count self.old.received) }
        ensures count { self.new.received_count ≤ self.old.received_count + 1 }
        ensures behind { drop (self.old.received_count + 1) self.new.received ≡ drop (self.old.received_count + 1) self.old.received }
        ensures long { length self.new.received ≡ length self.old.received }
        ensures written { held slot.width (place_of slot.number shard.entry.index) (length shard.entry.bytes.now) shards.new ≡ shard.entry.bytes.now }
        ensures others { (other n : ℕ) → (other ≢ place_of slot.number shard.entry.index) → n ≤ slot.width → held slot.width other n shards.new ≡ held slot.width other n shards.old }
    {
        let stored = Stored {
            index: Index(shard.index),
            len: shard.bytes.len() as u16,
        };
        places::store(shards, slot.width, slot.place(stored.index), shard.bytes);
        self.contributed[shard.index as usize] = true;
        self.received_count = file(&mut self.received, self.received_count, stored);
        stored
    }

    // A stored shard joins the checked ones, behind them.
    pub fn join_checked(&mut self, stored: Stored)
        requires { self.old.checked_count < 64 }
        ensures { self.new ≡ with_checked (slice_set self.old.checked self.old.checked_count stored) (self.old.checked_count + 1) self.old }
    {
        self.checked[self.checked_count] = stored;
        self.checked_count += 1;
    }

    // A stored shard joins the pending ones, by its sender's key.
    pub fn join_pending(&mut self, sender: &Key, stored: Stored)
        requires out { self.old.job_pending ≤ self.old.pending_count }
        requires room { self.old.pending_count < 64 }
        ensures stays { self.new ≡ with_pending self.new.pending self.new.pending_count self.old }
        ensures job { take self.old.job_pending self.new.pending ≡ take self.old.job_pending self.old.pending }
        ensures table { drop self.old.job_pending (take self.new.pending_count self.new.pending) ≡ put by_sender sender_named (record { sender = sender.entry.now; shard = stored }) (drop self.old.job_pending (take self.old.pending_count self.old.pending)) }
        ensures count { (self.old.pending_count ≤ self.new.pending_count) × (self.new.pending_count ≤ self.old.pending_count + 1) }
        ensures behind { drop (self.old.pending_count + 1) self.new.pending ≡ drop (self.old.pending_count + 1) self.old.pending }
        ensures long { length self.new.pending ≡ length self.old.pending }
    {
        let out = self.job_pending;
        let waiting = self.pending_count - out;
        let pending = Pending {
            sender: *sender,
            shard: stored,
        };
        self.pending_count = out + file(&mut self.pending[out..], waiting, pending);
    }
}
