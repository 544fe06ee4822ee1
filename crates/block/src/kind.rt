// Block kinds: what one tells from a blob's bytes alone.
ghost use Rattle.std.specs.Prelude.{◌≡◌, ◌+◌, ◌≤◌, ℕ, List, length, Option};
ghost use Rattle.block.specs.Readings.{Alone, Inside, context_in};
ghost use Rattle.block.specs.declared.kind.Reading.{Reading};

use hash::Hash;

// The block in front of a blob: its length, the place of the context in it, and its digest.
// The context's place is no Range, since a Range is not Copy and a Reading is.
#[derive(Clone, Copy, Debug, PartialEq, Eq)]
pub struct Reading {
    pub len: usize,
    pub context_from: usize,
    pub context_len: usize,
    pub digest: [u8; 32],
}

impl Reading {
    // The context of the block, which was read in front of `blob`.
    pub fn context<'a>(&self, blob: &'a [u8]) -> &'a [u8]
        requires { self.now.context_from + self.now.context_len ≤ length blob.now }
        ensures { result.now ≡ context_in blob.now self.now }
    {
        &blob[self.context_from..self.context_from + self.context_len]
    }
}

pub trait Kind {
    // The block in front of a blob, or that there is none: digest, blob.
    ghost reads: { Self → (List ℕ → List ℕ) → List ℕ → Option Reading };

    fn read<D: Hash>(&self, hash: &D, blob: &[u8]) -> Option<Reading>
        ensures { result ≡ reads self.now (D.Hash.digest hash.now) blob.now };

    ghost inside: { (k : Self) (digest : List ℕ → List ℕ) (blob : List ℕ) → Inside blob (reads k digest blob) };

    ghost alone: { (k : Self) (digest : List ℕ → List ℕ) → Alone (reads k digest) };
}
