// One roster for every epoch.
ghost use Rattle.std.specs.Prelude.{◌≡◌, Some};
ghost use Rattle.rosters.specs.Enrolled.{keys_of};
ghost use Rattle.rosters.specs.Soundness.{members_fair};

use crate::members::Members;
use crate::roster::Roster;
use register::counters::Epoch;
use register::key::Key;

#[derive(Clone, Copy)]
pub struct Single {
    members: Members,
}

impl Single {
    pub fn new(members: Members) -> Single
        ensures { result.members ≡ members }
    {
        Single { members }
    }
}

impl Roster for Single {
    ghost keys = { λ s _. Some (keys_of s.members) };

    ghost own = { λ s _. s.members.own };

    ghost fair = { λ s e. members_fair s.members };

    fn members(&self, _epoch: Epoch) -> Option<&[Key]> {
        Some(self.members.keys())
    }

    fn own_index(&self, _epoch: Epoch) -> Option<u16> {
        self.members.own()
    }
}
