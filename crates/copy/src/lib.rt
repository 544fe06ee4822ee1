// The scheme Copy: a shard is the whole blob, and the first one opens it.
#![tactic(auto)]

ghost use Rattle.copy.specs.Copies.{copy_good, copy_opens};

use hash::Hash;
use register::bytes::write_front;
use scheme::coding::Coding;
use scheme::fault::Fault;
use scheme::piece::Piece;
use scheme::scheme::Scheme;

#[derive(Clone, Copy)]
pub struct Copies;

impl Scheme for Copies {
    ghost good = { λ _ digest config root limit. copy_good digest config root };

    ghost opens = { λ _ digest config root. copy_opens };

    fn check<D: Hash>(&self, hash: &D, coding: Coding<'_>, limit: usize, shard: Piece<'_>) -> bool {
        let shards = u32::from(coding.config.minimum) + u32::from(coding.config.extra);
        u32::from(shard.index) < shards && hash.hash(shard.bytes).as_slice() == coding.root
    }

    fn decode<D: Hash>(
        &self,
        hash: &D,
        coding: Coding<'_>,
        shards: &[Piece<'_>],
        place: &mut [u8],
    ) -> Result<usize, Fault> {
        let blob = shards.first().ok_or(Fault::TooFew)?.bytes;
        write_front(place, blob)?;
        Ok(blob.len())
    }
}
