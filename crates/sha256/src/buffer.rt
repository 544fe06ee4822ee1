// Up to `N` bytes, filled from the front.
ghost use Rattle.std.specs.Prelude.{◌≡◌, ℕ, ◌≤◌, List, [], ◌++◌, take};

use std::marker::Model;

#[derive(Drop)]
pub struct Buffer<const N: usize> {
    bytes: [u8; N],
    len: usize,
}

impl<const N: usize> Model for Buffer<N> {
    ghost Value = { List ℕ };

    ghost view = { λ b. take b.len b.bytes };

    ghost invariant = { λ b. b.len ≤ N };
}

impl<const N: usize> Buffer<N> {
    pub fn new() -> Self
        ensures { result ≡ [] }
    {
        Buffer {
            bytes: [0; N],
            len: 0,
        }
    }

    // The first `len` of the bytes.
    pub fn of(bytes: [u8; N], len: usize) -> Self
        requires { len ≤ N }
        ensures { result ≡ take len bytes.entry }
    {
        Buffer { bytes, len }
    }

    // Appends what fits of `part`.
    pub fn append(&mut self, part: &[u8])
        ensures { self.new ≡ take N (self.old ++ part.now) }
    {
        let n = part.len().min(N - self.len);
        let bytes = &mut self.bytes[..];
        bytes[self.len..self.len + n].copy_from_slice(&part[..n]);
        self.len += n;
    }

    pub fn as_slice(&self) -> &[u8]
        ensures { result.now ≡ self.now }
    {
        &self.bytes[..self.len]
    }
}
