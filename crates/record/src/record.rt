// The record itself: how it begins, its round and its leader. It lies in one slot of the engine and never moves; its
// commitment is filed beside it.
ghost use Rattle.std.specs.Prelude.{◌≡◌, ℕ, false, List, take, Some, None};
ghost use Rattle.model.specs.State.{larger, new_record, with_leader, with_round};
ghost use Rattle.record.specs.Fields.{at_round, by_index, index_named, under_leader};
ghost use Rattle.record.specs.Sound.{Rooms, Sound};
ghost use Rattle.record.specs.Views.{Memory, leader_of, view};
ghost use Rattle.std.specs.Option.{option_map};
ghost use Rattle.table.specs.Laws.{look};

use crate::stored::{Pending, Stored};
use register::counters::Round;
use register::key::Key;
use register::ordered::Index;

// The engine's state lies in memory that a C caller lends, and an exported C function can take no reference to a struct that
// holds an enum (Option too) or a struct with parameters. So flags stand beside values here, and counts beside plain arrays.
#[repr(C)]
#[derive(Clone, Copy)]
pub struct Record {
    pub round: Round,
    // whether there is a leader; no Option, for C
    pub led: bool,
    pub leader: Key,
    pub contributed: [bool; 64],
    pub verified: bool,
    pub completions: u16,
    // whether the block is cached, and the length of its blob; no Option, for C
    pub cached: bool,
    pub blob_len: usize,
    // by index; no struct of a list with its count, generic over what it holds, for C: nor the two lists below
    pub received: [Stored; 64],
    pub received_count: usize,
    // in order; the first `job_checked` are out with the job
    pub checked: [Stored; 64],
    pub checked_count: usize,
    pub job_checked: usize,
    // by sender; the first `job_pending` are out with the job
    pub pending: [Pending; 64],
    pub pending_count: usize,
    pub job_pending: usize,
    // whether a job is out, with what the two counts above say; no Option, for C
    pub job: bool,
}

impl Record {
    // No leader, no shards, no block and no job; what lies in the slot's places counts no more.
    pub fn reset(&mut self, round: Round)
        ensures new { (at : Memory) (c : List ℕ) (slot : ℕ) → view at c slot self.new ≡ new_record c round None }
        ensures sound { (width : ℕ) → Rooms self.old → Sound width self.new }
        ensures job { self.new.job ≡ false }
    {
        self.round = round;
        self.led = false;
        self.contributed = [false; 64];
        self.verified = false;
        self.completions = 0;
        self.cached = false;
        self.received_count = 0;
        self.checked_count = 0;
        self.job_checked = 0;
        self.pending_count = 0;
        self.job_pending = 0;
        self.job = false;
    }

    // A record takes the larger round.
    pub fn observe(&mut self, round: Round)
        ensures view { (at : Memory) (c : List ℕ) (slot : ℕ) → view at c slot self.new ≡ with_round (larger self.old.round round) (view at c slot self.old) }
        ensures stays { self.new ≡ at_round (larger self.old.round round) self.old }
    {
        if self.round < round {
            self.round = round;
        }
    }

    pub fn leader(&self) -> Option<&Key>
        ensures { option_map (λ k. k.now.bytes) result ≡ leader_of self.now }
    {
        self.led.then_some(&self.leader)
    }

    // What was received at an index.
    pub fn received_at(&self, index: Index) -> Option<&Stored>
        ensures { option_map (λ s. s.now) result ≡ look by_index index_named index (take self.now.received_count self.now.received) }
    {
        table::get(&self.received, self.received_count, &index)
    }

    pub fn set_leader(&mut self, leader: Key)
        ensures view { (at : Memory) (c : List ℕ) (slot : ℕ) → view at c slot self.new ≡ with_leader (Some leader.bytes) (view at c slot self.old) }
        ensures stays { self.new ≡ under_leader leader self.old }
    {
        self.led = true;
        self.leader = leader;
    }
}
