// Rosters of up to 16 epochs. An epoch's keys never change; whether the epoch is known does.
ghost use Rattle.std.specs.Prelude.{◌≡◌, ◌+◌, [], length, is_some, is_ok, if◌then◌else◌, MatchBool, MatchResult};
ghost use Rattle.table.specs.Answers.{inserts};
ghost use Rattle.table.specs.Table.{found, put};
ghost use Rattle.rosters.specs.Epochs.{by_number, epoch_of, filed, keys_told, Laws, new_row, own_told, row, rows_of, switched};
ghost use Rattle.rosters.specs.Switched.{told_fair};

use crate::fault::Fault;
use crate::members::Members;
use crate::roster::Roster;
use register::counters::Epoch;
use register::key::Key;
use table::{Entry, Refusal};

#[derive(Clone, Copy)]
pub struct Row {
    epoch: Epoch,
    // no Option of the members, since they stay filed while the epoch is unknown
    known: bool,
    members: Members,
}

impl Entry for Row {
    type Key = Epoch;

    ghost named = { epoch_of };

    fn key(&self) -> &Epoch {
        &self.epoch
    }
}

// The rows are an array and a count, since there is no heap; nor is a list type of N shared with the members, since a `Copy`
// struct has a model only where that gives its fields back.
#[derive(Clone, Copy)]
pub struct Table {
    rows: [Row; 16],
    count: usize,
}

impl Table {
    // Every epoch is unknown.
    pub fn new() -> Table
        ensures rows { rows_of result ≡ [] }
        ensures count { result.count ≡ 0 }
    {
        let members = Members::new(&[], None).unwrap();
        let row = Row {
            epoch: Epoch(0),
            known: false,
            members,
        };
        Table {
            rows: [row; 16],
            count: 0,
        }
    }

    // The epoch is known from now on.
    pub fn add(&mut self, epoch: Epoch, members: Members) -> Result<(), Fault>
        ensures answer { result ≡ filed (inserts self.old.count (length self.old.rows) (found by_number epoch_of epoch (rows_of self.old))) }
        ensures rows { MatchResult result (λ _. rows_of self.new ≡ put by_number epoch_of (new_row epoch.0 members) (rows_of self.old)) (λ _. self.new ≡ self.old) }
        ensures count { self.new.count ≡ (if is_ok result then self.old.count + 1 else self.old.count) }
    {
        let row = Row {
            epoch,
            known: true,
            members,
        };
        table::insert(&mut self.rows, self.count, row).map_err(|refusal| match refusal {
            Refusal::Present => Fault::EpochTwice,
            _ => Fault::TooManyEpochs,
        })?;
        self.count += 1;
        Ok(())
    }

    // Whether the epoch is filed; where it is not, nothing changes. A bool, as a set's `remove` answers, since nothing fails.
    pub fn set_known(&mut self, epoch: Epoch, known: bool) -> bool
        ensures answer { result ≡ is_some (row epoch.0 (rows_of self.old)) }
        ensures rows { MatchBool result (rows_of self.new ≡ switched epoch.0 known (rows_of self.old)) (self.new ≡ self.old) }
        ensures count { self.new.count ≡ self.old.count }
    {
        match table::find(&self.rows, self.count, &epoch) {
            Ok(place) => {
                self.rows[place].known = known;
                true
            }
            Err(_) => false,
        }
    }
}

impl Roster for Table {
    ghost keys = { λ t e. keys_told (row e (rows_of t)) };

    ghost own = { λ t e. own_told (row e (rows_of t)) };

    ghost fair = { λ t e. told_fair (row e (rows_of t)) };

    fn members(&self, epoch: Epoch) -> Option<&[Key]> {
        table::get(&self.rows, self.count, &epoch)
            .filter(|row| row.known)
            .map(|row| row.members.keys())
    }

    fn own_index(&self, epoch: Epoch) -> Option<u16> {
        table::get(&self.rows, self.count, &epoch)
            .filter(|row| row.known)
            .and_then(|row| row.members.own())
    }
}

// What a switch and a new epoch change, and what they leave.
pub fn epochs_stand()
    ensures { Laws }
{}
