// Numbers written in bytes, high byte first.
ghost use Rattle.std.specs.Prelude.{◌≡◌, ℕ, ◌+◌, ◌<◌, ◌≤◌, length, slice_index, MatchOption};
ghost use Rattle.register.specs.Words.{word?};

// The N bytes at `at`, if they are there.
fn array_at<const N: usize>(bytes: &[u8], at: usize) -> Option<[u8; N]>
    ensures { MatchOption result (length bytes.now < at + N) (λ array. (at + N ≤ length bytes.now) × ((i : ℕ) → i < N → slice_index array i ≡ slice_index bytes.now (at + i))) }
{
    bytes.get(at..)?.first_chunk::<N>().copied()
}

// Three names over the one `array_at`: no trait of std has `from_be_bytes`, and with a trait of ours three impls would stand for
// three functions. `array_at` refuses what is not there, where that of hash asks its caller for it.

// The number in the two bytes at `at`, if they are there.
pub fn read_u16(bytes: &[u8], at: usize) -> Option<u16>
    ensures { result ≡ word? bytes.now at 2 }
{
    array_at(bytes, at).map(u16::from_be_bytes)
}

// The number in the four bytes at `at`, if they are there.
pub fn read_u32(bytes: &[u8], at: usize) -> Option<u32>
    ensures { result ≡ word? bytes.now at 4 }
{
    array_at(bytes, at).map(u32::from_be_bytes)
}

// The number in the eight bytes at `at`, if they are there.
pub fn read_u64(bytes: &[u8], at: usize) -> Option<u64>
    ensures { result ≡ word? bytes.now at 8 }
{
    array_at(bytes, at).map(u64::from_be_bytes)
}
