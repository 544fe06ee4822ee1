// The shelf itself, and one of its records changed in place.
ghost use Rattle.std.specs.Prelude.{◌≡◌, ℕ, ◌<◌, List, slice_index_or, slice_set};
ghost use Rattle.model.specs.State.{larger, with_round};
ghost use Rattle.record.specs.Fields.{at_round};
ghost use Rattle.record.specs.Views.{memory};
ghost use Rattle.shelf.specs.Views.{blank, nothing, record_in, shelf_of};
ghost use Rattle.shelf.specs.Whole.{Whole, with_records};

use record::record::Record;
use register::commitment::Commitment;
use register::counters::Round;
use table::Entry;

// A commitment, and the slot of its record.
#[repr(C)]
#[derive(Clone, Copy)]
pub struct Filed {
    pub commitment: Commitment,
    pub slot: usize,
}

impl Entry for Filed {
    type Key = Commitment;

    ghost named = { λ f. f.commitment };

    fn key(&self) -> &Commitment {
        &self.commitment
    }
}

// It lies whole in memory that a C caller lends, and an exported C function can take no reference to a struct with parameters:
// so plain arrays with a count beside them, and no struct of a table that is generic over its entries and its room.
// The first `count` of `filed` are held. The first window + 1 have a slot each, so the one behind those held has a spare slot.
#[repr(C)]
#[derive(Clone, Copy)]
pub struct Shelf {
    pub window: usize,
    // the most bytes of a shard, and of a blob
    pub width: usize,
    pub size: usize,
    pub filed: [Filed; 17],
    pub count: usize,
    pub records: [Record; 17],
}

impl Shelf {
    // The record at a place of the table takes the larger round.
    pub fn observe(&mut self, place: usize, round: Round)
        requires whole { Whole self.old }
        requires within { place < self.old.count }
        ensures stays { let slot = (slice_index_or self.old.filed place nothing).slot in let rec = slice_index_or self.old.records slot blank in self.new ≡ with_records (slice_set self.old.records slot (at_round (larger rec.round round) rec)) self.old }
        ensures records { (shards blobs : List ℕ) → let was = record_in (memory self.old.width shards self.old.size blobs) self.old.records (slice_index_or self.old.filed place nothing) in shelf_of self.new shards blobs ≡ slice_set (shelf_of self.old shards blobs) place (with_round (larger was.round round) was) }
        ensures whole { Whole self.new }
    {
        let slot = self.filed[place].slot;
        let rec = &mut self.records[slot];
        rec.observe(round);
    }
}
