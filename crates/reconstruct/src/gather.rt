// Gathering the shards to open: those checked before, then the good ones among the pending.
ghost use Rattle.std.specs.Prelude.{◌≡◌, ◌≤◌, length, IfSome, MatchOption};
ghost use Rattle.reconstruct.specs.Coders.{Gathers, counted, judged_by};
ghost use Rattle.register.specs.Commitments.{under};

use crate::keep::keep;
use hash::Hash;
use register::commitment::Commitment;
use scheme::coding::Coding;
use scheme::piece::Piece;
use scheme::scheme::Scheme;

// Checks the shards behind the first `checked`, moves the good ones up behind those, and counts all that stand there then.
// None, with nothing changed, where there are not as many shards or no room for the verdicts. `checked` is a count into
// `shards`, and not a slice of its own, since the good ones must end up next to the checked ones to be opened together. No
// method of `Coder`: a method would ask every caller for a block kind.
pub fn gather<D: Hash, S: Scheme>(
    hash: &D,
    scheme: &S,
    commitment: &Commitment,
    limit: usize,
    shards: &mut [Piece<'_>],
    checked: usize,
    verdicts: &mut [bool],
) -> Option<usize>
    ensures counts { result ≡ counted (under (S.good scheme.now (D.digest hash.now)) commitment.now.bytes limit) checked shards.old (length verdicts.old) }
    ensures gathers { MatchOption result (shards.new ≡ shards.old) (Gathers (under (S.good scheme.now (D.digest hash.now)) commitment.now.bytes limit) checked shards.old shards.new) }
    ensures within { IfSome result (λ n. n ≤ length shards.old) }
    ensures judges { MatchOption result (verdicts.new ≡ verdicts.old) (λ _. verdicts.new ≡ judged_by (under (S.good scheme.now (D.digest hash.now)) commitment.now.bytes limit) checked shards.old verdicts.old) }
{
    if checked > shards.len() {
        return None;
    }
    scheme
        .check_many(
            hash,
            Coding::of(commitment),
            limit,
            &shards[checked..],
            verdicts,
        )
        .ok()?;
    Some(checked + keep(&mut shards[checked..], verdicts))
}
