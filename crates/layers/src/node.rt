// What an engine asks of the layers below it, by their meaning.
ghost use Rattle.std.specs.Prelude.{◌≡◌, ℕ, ◌<◌, length, is_some, MatchOption};
ghost use Rattle.layers.specs.Together.{terms_for};
ghost use Rattle.model.specs.Meaning.{Meaning, Roster, good_for};
ghost use Rattle.reconstruct.specs.Coders.{judged_by, outcome_of, place_after};
ghost use Rattle.rosters.specs.Roster.{Fair, index_in};
ghost use Rattle.scheme.specs.Pieces.{indexed};

use reconstruct::outcome::Outcome;
use register::commitment::Commitment;
use register::counters::Epoch;
use register::key::Key;
use scheme::piece::Piece;

pub trait Node {
    ghost meaning: { Self → Meaning };

    ghost roster: { Self → Roster };

    // Whether a shard is good for a commitment.
    fn check(&self, commitment: &Commitment, limit: usize, shard: Piece<'_>) -> bool
        ensures { result ≡ good_for (meaning self.now) limit commitment.now.bytes (indexed shard.entry) };

    // Checks the shards behind the first `checked`, and opens the good ones with those where they reach the minimum. None,
    // with nothing changed, where there are not as many shards or no room for the verdicts. `checked` is a count into
    // `shards`, and not a slice of its own, since the good ones must end up next to the checked ones to be opened together.
    fn rebuild(
        &self,
        commitment: &Commitment,
        shards: &mut [Piece<'_>],
        checked: usize,
        verdicts: &mut [bool],
        place: &mut [u8],
    ) -> Option<Outcome>
        ensures gives { result ≡ outcome_of (terms_for (meaning self.now) commitment.now.bytes (length place.old)) checked shards.old (length verdicts.old) }
        ensures writes { place.new ≡ place_after (terms_for (meaning self.now) commitment.now.bytes (length place.old)) checked shards.old (length verdicts.old) place.old }
        ensures judges { MatchOption result (verdicts.new ≡ verdicts.old) (λ _. verdicts.new ≡ judged_by (terms_for (meaning self.now) commitment.now.bytes (length place.old)).good checked shards.old verdicts.old) };

    fn knows(&self, epoch: Epoch) -> bool
        ensures { result ≡ is_some ((roster self.now).keys epoch.0) };

    // The member's index in the epoch.
    fn index_of(&self, epoch: Epoch, key: &Key) -> Option<u16>
        ensures { result ≡ index_in key.now.bytes ((roster self.now).keys epoch.0) };

    // This node's own index in the epoch.
    fn own_index(&self, epoch: Epoch) -> Option<u16>
        ensures { result ≡ (roster self.now).own epoch.0 };

    ghost fair: { (n : Self) (e : ℕ) → Fair ((roster n).keys e) ((roster n).own e) };
}
