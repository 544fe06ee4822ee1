// Moving what passed to the front.
ghost use Rattle.std.specs.Prelude.{◌≡◌, ◌≤◌, length, take};
ghost use Rattle.reconstruct.specs.Passed.{passed};

use scheme::piece::Piece;

// Moves the shards whose verdict is good to the front, in their order, and counts them. A slice has no `retain`, so two
// places are counted: that of the shard looked at, and that of the next one kept.
pub(crate) fn keep(shards: &mut [Piece<'_>], verdicts: &[bool]) -> usize
    requires { length shards.old ≤ length verdicts.now }
    ensures keeps { take result shards.new ≡ passed shards.old verdicts.now }
    ensures counts { result ≡ length (passed shards.old verdicts.now) }
    ensures within { result ≤ length shards.old }
{
    let mut count = 0;
    for (i, good) in verdicts[..shards.len()].iter().enumerate() {
        if *good {
            shards[count] = shards[i];
            count += 1;
        }
    }
    count
}
