// A shard that arrives at its record, in the order of the rules.
ghost use Rattle.std.specs.Prelude.{◌≡◌, ◌<◌, ◌≤◌, false, length, IfSome, IfNone, if◌then◌else◌, slice_index_or};
ghost use Rattle.intake.specs.Classes.{Kept};
ghost use Rattle.intake.specs.Steps.{Fitting, Follows, Settles, arrives_as, arrives_from, checked, good_in, shard_of};
ghost use Rattle.model.specs.Intake.{assigned as toAssigned, dropped, owned as toOwned, unless_contributed};
ghost use Rattle.record.specs.Joins.{Housed, OpenTo, Placed};
ghost use Rattle.scheme.specs.Pieces.{indexed};

use crate::class::{Arrival, Class, Stage, classify};
use crate::received::received;
use crate::taken::{Act, Taken};
use layers::node::Node;
use model::answer::Reason;
use record::record::Record;
use record::slot::Slot;
use register::commitment::Commitment;
use scheme::piece::Piece;

// What a record is filed under, where its shards lie, and the largest blob's length. The record and the shards are lent
// beside it: a struct that holds a `&mut` needs a clause on its ghost name in each contract, and is no plainer. So is the
// node: with it this is a `Home<'a, N>`, and `settled` and `arrive_owned`, which ask no node, get its parameter.
#[derive(Clone, Copy)]
pub struct Home<'a> {
    pub commitment: &'a Commitment,
    pub slot: Slot,
    pub limit: usize,
}

// The assigned shard is checked at once: a bad one is not kept. No `Arrival`, since it is the same whoever sent it.
pub fn check_assigned<N: Node>(
    rec: &mut Record,
    node: &N,
    home: Home<'_>,
    shards: &mut [u8],
    own: Option<u16>,
    shard: Piece<'_>,
) -> Taken
    requires placed { Placed home.slot shards.old }
    requires fits { OpenTo home.slot.width rec.old shard.index shard.bytes.now }
    ensures takes { Follows home.entry (indexed shard.entry) rec.old rec.new shards.old shards.new result (checked (good_in (N.Node.meaning node.now) home.entry) own (indexed shard.entry)) }
    ensures kept { Kept home.entry.slot rec.old rec.new shards.old shards.new }
{
    if !node.check(home.commitment, home.limit, shard) {
        return Taken::Rejected(Reason::BadAssigned);
    }
    rec.verify(shards, home.slot, shard);
    let action = if own.is_some() {
        Act::Broadcast
    } else {
        Act::Ready
    };
    Taken::Gained(Some(action))
}

// Before the block: what was received at the index, or that it has contributed, ends intake.
pub fn settled(rec: &Record, home: Home<'_>, shards: &[u8], shard: Piece<'_>) -> Option<Taken>
    requires housed { Housed home.slot rec.now shards.now }
    requires within { shard.index < 64 }
    ensures settles { Settles home.entry rec.now shards.now (indexed shard.entry) result }
    ensures unused { IfNone result (slice_index_or rec.now.contributed shard.entry.index false ≡ false) }
{
    if let Some(bytes) = received(rec, shards, home.slot, shard.index) {
        return Some(if bytes == shard.bytes {
            Taken::Dropped
        } else {
            Taken::Rejected(Reason::Equivocation)
        });
    }
    rec.contributed[shard.index as usize].then_some(Taken::Dropped)
}

// Before the block: the sender's own shard waits for a job, and is not checked: so which are good does not matter.
fn arrive_owned(rec: &mut Record, home: Home<'_>, shards: &mut [u8], arrival: Arrival<'_>) -> Taken
    requires fits { Fitting home.slot rec.old shards.old (indexed arrival.shard) }
    requires before { rec.old.cached ≡ false }
    ensures takes { Follows home.entry (shard_of arrival.entry) rec.old rec.new shards.old shards.new result (arrives_as (λ _. false) arrival.entry toOwned) }
    ensures kept { Kept home.entry.slot rec.old rec.new shards.old shards.new }
{
    if let Some(taken) = settled(rec, home, shards, arrival.shard) {
        return taken;
    }
    rec.wait(shards, home.slot, arrival.sender, arrival.shard);
    Taken::Gained(None)
}

// Before the block: the assigned shard is checked, unless one is verified; then it waits as any.
fn arrive_assigned<N: Node>(
    rec: &mut Record,
    node: &N,
    home: Home<'_>,
    shards: &mut [u8],
    arrival: Arrival<'_>,
) -> Taken
    requires fits { Fitting home.slot rec.old shards.old (indexed arrival.shard) }
    requires before { rec.old.cached ≡ false }
    ensures takes { Follows home.entry (shard_of arrival.entry) rec.old rec.new shards.old shards.new result (arrives_as (good_in (N.Node.meaning node.now) home.entry) arrival.entry toAssigned) }
    ensures kept { Kept home.entry.slot rec.old rec.new shards.old shards.new }
{
    if rec.verified {
        return arrive_owned(rec, home, shards, arrival);
    }
    if let Some(taken) = settled(rec, home, shards, arrival.shard) {
        return taken;
    }
    check_assigned(rec, node, home, shards, arrival.own, arrival.shard)
}

// After the block only the assigned shard is looked at, until one is verified.
fn arrive_late<N: Node>(
    rec: &mut Record,
    node: &N,
    home: Home<'_>,
    shards: &mut [u8],
    arrival: Arrival<'_>,
) -> Taken
    requires { Fitting home.slot rec.old shards.old (indexed arrival.shard) }
    ensures takes { Follows home.entry (shard_of arrival.entry) rec.old rec.new shards.old shards.new result (λ r. unless_contributed (shard_of arrival.entry) r (if r.verified then dropped r else checked (good_in (N.Node.meaning node.now) home.entry) arrival.entry.own (shard_of arrival.entry) r)) }
    ensures kept { Kept home.entry.slot rec.old rec.new shards.old shards.new }
{
    if rec.contributed[arrival.shard.index as usize] || rec.verified {
        return Taken::Dropped;
    }
    check_assigned(rec, node, home, shards, arrival.own, arrival.shard)
}

// Intake of a shard whose sender's index among the members is `place`.
pub fn intake<N: Node>(
    rec: &mut Record,
    node: &N,
    home: Home<'_>,
    shards: &mut [u8],
    place: Option<u16>,
    arrival: Arrival<'_>,
) -> Taken
    requires housed { Housed home.slot rec.old shards.old }
    requires fits { length arrival.shard.bytes.now ≤ home.slot.width }
    requires member { IfSome place (λ i. i < 64) }
    requires own { IfSome arrival.own (λ i. i < 64) }
    ensures takes { Follows home.entry (shard_of arrival.entry) rec.old rec.new shards.old shards.new result (arrives_from (good_in (N.Node.meaning node.now) home.entry) arrival.entry place) }
    ensures kept { Kept home.entry.slot rec.old rec.new shards.old shards.new }
{
    let Some(place) = place else {
        return Taken::Rejected(Reason::Stranger);
    };
    let class = classify(rec, arrival.own, arrival.sender, place, arrival.shard.index);
    match (Stage::of(rec), class) {
        (_, Class::Stray) if rec.leader().is_some() => Taken::Rejected(Reason::WrongIndex),
        (_, Class::Stray) => Taken::Dropped,
        (Stage::Awaiting, Class::Assigned) => arrive_assigned(rec, node, home, shards, arrival),
        (Stage::Awaiting, Class::Owned) => arrive_owned(rec, home, shards, arrival),
        (Stage::Cached, Class::Assigned) => arrive_late(rec, node, home, shards, arrival),
        (Stage::Cached, Class::Owned) => Taken::Dropped,
    }
}
