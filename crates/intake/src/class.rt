// A shard that arrives, and what it is to a record, by its sender and its index.
ghost use Rattle.std.specs.Prelude.{◌≡◌, ◌<◌, IfSome};
ghost use Rattle.intake.specs.Classes.{Within, class_of, stage_of};
ghost use Rattle.model.specs.Intake.{classed, is_assigned, leads};
ghost use Rattle.record.specs.Views.{leader_of};

use record::record::Record;
use register::key::Key;
use scheme::piece::Piece;

// A shard, the key that sent it, and this node's own index among the members.
#[derive(Clone, Copy)]
pub struct Arrival<'a> {
    pub sender: &'a Key,
    pub own: Option<u16>,
    pub shard: Piece<'a>,
}

#[derive(Clone, Copy, Debug, PartialEq, Eq)]
pub enum Class {
    // the one that this node waits for
    Assigned,
    // the sender's own
    Owned,
    Stray,
}

// A record's phase: shards are gathered until the block is cached.
#[derive(Clone, Copy, Debug, PartialEq, Eq)]
pub enum Stage {
    Awaiting,
    Cached,
}

impl Stage {
    pub fn of(rec: &Record) -> Stage
        ensures { result ≡ stage_of rec.now.cached }
    {
        if rec.cached {
            Stage::Cached
        } else {
            Stage::Awaiting
        }
    }
}

// Whether the leader is known, and is this key.
pub fn led_by(rec: &Record, key: &Key) -> bool
    ensures { result ≡ leads (leader_of rec.now) key.now.bytes }
{
    rec.leader() == Some(key)
}

// `place` is the sender's index.
fn assigned(rec: &Record, own: Option<u16>, sender: &Key, place: u16, index: u16) -> bool
    ensures { result ≡ is_assigned own (leader_of rec.now) sender.now.bytes place index }
{
    match own {
        Some(own) => index == own,
        None => led_by(rec, sender) && index == place,
    }
}

// No `Arrival`: of the shard only its index is asked for.
pub fn classify(rec: &Record, own: Option<u16>, sender: &Key, place: u16, index: u16) -> Class
    ensures class { class_of result ≡ classed own (leader_of rec.now) sender.now.bytes place index }
    ensures within { place < 64 → IfSome own (λ i. i < 64) → Within result index }
{
    if assigned(rec, own, sender, place, index) {
        Class::Assigned
    } else if index == place {
        Class::Owned
    } else {
        Class::Stray
    }
}
