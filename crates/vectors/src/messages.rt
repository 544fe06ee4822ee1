// The messages that the stored digests are of.
ghost use Rattle.std.specs.Prelude.{◌≡◌, IfOk};
ghost use Rattle.vectors.specs.Messages.{pattern, pattern_byte, repeated};

use std::alloc::{AllocError, Global};

fn pattern_byte(n: u32, i: u32) -> u8
    ensures { result ≡ pattern_byte n i }
{
    let (n, i) = (u64::from(n), u64::from(i));
    ((i * 7 + n * 13 + i / 256 * 31) % 251) as u8
}

pub fn pattern_of(heap: Global, n: u32) -> Result<Vec<u8>, AllocError>
    ensures { IfOk result (λ v. v.items ≡ pattern n) }
{
    (0..n).map(|i| pattern_byte(n, i)).collect(heap)
}

pub fn repeat(heap: Global, text: &[u8], count: u32) -> Result<Vec<u8>, AllocError>
    ensures { IfOk result (λ v. v.items ≡ repeated count text.now) }
{
    text.repeat(heap, count as usize)
}
