// Hash, scheme, block kind and commitment together: from checked and pending shards to a block or a fault.
ghost use Rattle.std.specs.Prelude.{◌≡◌, map, length, MatchOption};
ghost use Rattle.reconstruct.specs.Coders.{GathersAll, block_in, judged_by, outcome_of, place_after, terms_of};
ghost use Rattle.reconstruct.specs.Rebuilt.{written};
ghost use Rattle.scheme.specs.Pieces.{indexed};

use crate::error::Error;
use crate::gather::gather;
use crate::outcome::Outcome;
use block::blob::fit;
use block::kind::{Kind, Reading};
use hash::Hash;
use register::commitment::Commitment;
use scheme::coding::Coding;
use scheme::piece::Piece;
use scheme::scheme::Scheme;

#[derive(Drop)]
pub struct Coder<'a, D, S, K> {
    pub hash: &'a D,
    pub scheme: &'a S,
    pub kind: &'a K,
    pub commitment: &'a Commitment,
}

impl<'a, D: Hash, S: Scheme, K: Kind> Coder<'a, D, S, K> {
    // Opens the shards into the front of `place`, and reads the block there if it fits the commitment.
    pub fn open(&self, shards: &[Piece<'_>], place: &mut [u8]) -> Result<Reading, Error>
        ensures gives { result ≡ block_in (terms_of D.digest S.good S.opens K.reads self.now (length place.old)) (map indexed shards.now) }
        ensures writes { place.new ≡ written ((terms_of D.digest S.good S.opens K.reads self.now (length place.old)).opens (map indexed shards.now)) place.old }
    {
        let coding = Coding::of(self.commitment);
        let len = self.scheme.decode(self.hash, coding, shards, place)?;
        Ok(fit(self.hash, self.kind, self.commitment, &place[..len])?)
    }

    // Checks the shards behind the first `checked`, and opens the good ones with those where they reach the minimum. None,
    // with nothing changed, where there are not as many shards or no room for the verdicts. `checked` is a count into
    // `shards`, and not a slice of its own, since the good ones must end up next to the checked ones to be opened together.
    pub fn reconstruct(
        &self,
        shards: &mut [Piece<'_>],
        checked: usize,
        verdicts: &mut [bool],
        place: &mut [u8],
    ) -> Option<Outcome>
        ensures gives { result ≡ outcome_of (terms_of D.digest S.good S.opens K.reads self.now (length place.old)) checked shards.old (length verdicts.old) }
        ensures writes { place.new ≡ place_after (terms_of D.digest S.good S.opens K.reads self.now (length place.old)) checked shards.old (length verdicts.old) place.old }
        ensures gathers { MatchOption result (shards.new ≡ shards.old) (λ _. GathersAll (terms_of D.digest S.good S.opens K.reads self.now (length place.old)).good checked shards.old shards.new) }
        ensures judges { MatchOption result (verdicts.new ≡ verdicts.old) (λ _. verdicts.new ≡ judged_by (terms_of D.digest S.good S.opens K.reads self.now (length place.old)).good checked shards.old verdicts.old) }
    {
        let limit = place.len();
        let count = gather(
            self.hash,
            self.scheme,
            self.commitment,
            limit,
            shards,
            checked,
            verdicts,
        )?;
        if count < usize::from(self.commitment.config().minimum) {
            return Some(Outcome::Insufficient(count));
        }
        Some(Outcome::Decoded(self.open(&shards[..count], place)))
    }
}
