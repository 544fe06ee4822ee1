// The scheme trait: its meaning is fixed by hash, config, coding root, the largest blob's length, and the bytes given.
ghost use Rattle.std.specs.Prelude.{◌≡◌, ℕ, Bool, List, map, length, is_ok, nat_le};
ghost use Rattle.register.specs.declared.commitment.Config.{Config};
ghost use Rattle.scheme.specs.Pieces.{Indexed, indexed, judged};
ghost use Rattle.scheme.specs.Told.{Fits, Leaves, Opened, told};

use crate::coding::Coding;
use crate::fault::Fault;
use crate::piece::Piece;
use hash::Hash;
use register::bytes::NoRoom;

pub trait Scheme {
    // Whether a shard is good for an index: digest, config, root, limit, index, shard.
    ghost good: { Self → (List ℕ → List ℕ) → Config → List ℕ → ℕ → ℕ → List ℕ → Bool };

    // What a list of shards opens to: digest, config, root, limit, shards.
    ghost opens: { Self → (List ℕ → List ℕ) → Config → List ℕ → ℕ → List Indexed → Opened };

    fn check<D: Hash>(&self, hash: &D, coding: Coding<'_>, limit: usize, shard: Piece<'_>) -> bool
        ensures { result ≡ good self.now (D.Hash.digest hash.now) coding.entry.config coding.entry.root.now limit shard.entry.index shard.entry.bytes.now };

    // One verdict for each shard, in order, as `check` would, where there is room for them; else none is written.
    fn check_many<D: Hash>(
        &self,
        hash: &D,
        coding: Coding<'_>,
        limit: usize,
        shards: &[Piece<'_>],
        verdicts: &mut [bool],
    ) -> Result<(), NoRoom>
        ensures fits { is_ok result ≡ nat_le (length shards.now) (length verdicts.old) }
        ensures judges { verdicts.new ≡ judged (good self.now (D.Hash.digest hash.now) coding.entry.config coding.entry.root.now limit) (map indexed shards.now) verdicts.old }
    {
        if shards.len() > verdicts.len() {
            return Err(NoRoom);
        }
        // By index: `verdicts` may be longer than `shards`, and no invariant of a loop over
        // `verdicts[..shards.len()].iter_mut()` or `verdicts.iter_mut().zip(shards)` can name what that loop wrote.
        for (i, shard) in shards.iter().enumerate() {
            verdicts[i] = self.check(hash, coding, limit, *shard);
        }
        Ok(())
    }

    // Opens the shards into the front of `place`, whose length is the limit, and tells the blob's length.
    fn decode<D: Hash>(
        &self,
        hash: &D,
        coding: Coding<'_>,
        shards: &[Piece<'_>],
        place: &mut [u8],
    ) -> Result<usize, Fault>
        ensures tells { told result place.new ≡ opens self.now (D.Hash.digest hash.now) coding.entry.config coding.entry.root.now (length place.old) (map indexed shards.now) }
        ensures within { Fits result place.old }
        ensures behind { Leaves result place.old place.new };
}
