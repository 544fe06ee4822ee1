// The payloads that a list of shards is opened from: one for each index. An empty slice stands for no payload: in an
// `Option<&[u8]>`, `Some(&[])` would be a second empty case, since the rules count an empty payload as none.
ghost use Rattle.std.specs.Prelude.{◌≡◌, ◌+◌, ◌<◌, map, take};
ghost use Rattle.parity.specs.Parities.{counted, even, pick, picks, width};
ghost use Rattle.scheme.specs.Pieces.{indexed};
ghost use Rattle.tree.specs.Trees.{depth};

use scheme::piece::Piece;
use tree::path::{depth, payload};

// The payload of the first shard with this index that has one.
pub fn pick<'a>(shards: &[Piece<'a>], depth: u32, index: u16) -> &'a [u8]
    ensures { result.now ≡ pick depth (map indexed shards.now) index }
{
    shards
        .iter()
        .filter(|shard| shard.index == index)
        .map(|shard| payload(depth, shard.bytes))
        .find(|bytes| !bytes.is_empty())
        .unwrap_or(&[])
}

// The picks for the indices 0 to `last`, at the front. It answers 64 places, as many as there can be picks, since there is
// no heap; those behind `last` are empty.
pub fn picks<'a>(shards: &[Piece<'a>], last: u16) -> [&'a [u8]; 64]
    requires { last < 64 }
    ensures { map (λ x. x.now) (take (last + 1) result) ≡ picks last (map indexed shards.now) }
{
    let levels = depth(u32::from(last));
    // By index: `array::from_fn(|i| if i <= usize::from(last) { pick(shards, levels, i as u16) } else { &[] })`
    // says no more, and its closure has an `if` in it: what such a closure returned is not known afterwards.
    let mut found: [&'a [u8]; 64] = [&[]; 64];
    for index in 0..last + 1 {
        found[usize::from(index)] = pick(shards, levels, index);
    }
    found
}

// How many there are.
pub fn count(picks: &[&[u8]]) -> usize
    ensures { result ≡ counted (map (λ x. x.now) picks.now) }
{
    picks.iter().filter(|bytes| !bytes.is_empty()).count()
}

// The length of the last one that there is.
pub fn width(picks: &[&[u8]]) -> usize
    ensures { result ≡ width (map (λ x. x.now) picks.now) }
{
    picks.iter().fold(0, |last, bytes| {
        if bytes.is_empty() { last } else { bytes.len() }
    })
}

// Whether all that there are have this length.
pub fn even(picks: &[&[u8]], width: usize) -> bool
    ensures { result ≡ even width (map (λ x. x.now) picks.now) }
{
    picks
        .iter()
        .all(|bytes| bytes.is_empty() || bytes.len() == width)
}
