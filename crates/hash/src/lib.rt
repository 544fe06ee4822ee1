// What a hash means: every byte string has one digest of 32 bytes.
#![tactic(auto)]

pub mod parts;

ghost use Rattle.std.specs.Prelude.{ℕ, ◌<◌, List, ◌++◌, ◌≡◌, get_or, length};

pub trait Hash {
    ghost digest: { Self → List ℕ → List ℕ };

    // The digest of `first` followed by `second`, which are not joined in memory.
    fn hash_parts(&self, first: &[u8], second: &[u8]) -> [u8; 32]
        ensures { result ≡ digest self.now (first.now ++ second.now) };

    fn hash(&self, message: &[u8]) -> [u8; 32]
        ensures { result ≡ digest self.now message.now }
    {
        self.hash_parts(message, &[])
    }

    ghost long: { (h : Self) (m : List ℕ) → length (digest h m) ≡ 32 };

    ghost bytes: { (h : Self) (m : List ℕ) (k : ℕ) → get_or (digest h m) k 0 < 256 };
}
