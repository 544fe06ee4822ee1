// What a node knows of the members of an epoch.
ghost use Rattle.std.specs.Prelude.{◌≡◌, ℕ, List, is_some, Option};
ghost use Rattle.rosters.specs.Roster.{Fair, index_in, lent};

use crate::members::place;
use register::counters::Epoch;
use register::key::Key;

pub trait Roster {
    // The epoch's keys, by its number; None where the epoch is unknown.
    ghost keys: { Self → ℕ → Option (List (List ℕ)) };

    ghost own: { Self → ℕ → Option ℕ };

    fn members(&self, epoch: Epoch) -> Option<&[Key]>
        ensures { lent result ≡ keys self.now epoch.0 };

    fn own_index(&self, epoch: Epoch) -> Option<u16>
        ensures { result ≡ own self.now epoch.0 };

    fn known(&self, epoch: Epoch) -> bool
        ensures { result ≡ is_some (keys self.now epoch.0) }
    {
        self.members(epoch).is_some()
    }

    // The member's index: the place of its key.
    fn index_of(&self, epoch: Epoch, key: &Key) -> Option<u16>
        ensures { result ≡ index_in key.now.bytes (keys self.now epoch.0) }
    {
        let members = self.members(epoch)?;
        place(members, key)
    }

    ghost fair: { (s : Self) (e : ℕ) → Fair (keys s e) (own s e) };
}
