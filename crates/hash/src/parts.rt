// Parts of a byte string, read where they lie.
ghost use Rattle.std.specs.Prelude.{◌≡◌, ◌+◌, ◌≤◌, length, take, drop};

// What follows the first `n` bytes: nothing where there are no more than `n`.
pub fn after(bytes: &[u8], n: u128) -> &[u8]
    ensures { result.now ≡ drop n bytes.now }
{
    let start = n.min(bytes.len() as u128) as usize;
    &bytes[start..]
}

// The `N` bytes from `at` on.
pub fn array_at<const N: usize>(bytes: &[u8], at: usize) -> [u8; N]
    requires { at + N ≤ length bytes.now }
    ensures { result ≡ take N (drop at bytes.now) }
{
    *bytes[at..].first_chunk().unwrap()
}
