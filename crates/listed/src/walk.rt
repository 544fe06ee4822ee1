// A walk over the entries of a block.
ghost use Rattle.std.specs.Prelude.{◌≡◌};
ghost use Rattle.listed.specs.Listeds.{entry_walked, walked};

use hash::Hash;
use register::words::read_u16;

// How far a block is read, and its digest so far.
#[derive(Clone, Copy)]
pub struct Walk {
    pub at: usize,
    pub digest: [u8; 32],
}

impl Walk {
    // Past one entry; None where the blob ends in it.
    pub fn entry<D: Hash>(self, hash: &D, blob: &[u8]) -> Option<Walk>
        ensures { result ≡ entry_walked (D.Hash.digest hash.now) blob.now self }
    {
        let len = usize::from(read_u16(blob, self.at)?);
        let from = self.at + 2;
        let at = from + len;
        let digest = hash.hash_parts(&self.digest, blob.get(from..at)?);
        Some(Walk { at, digest })
    }

    // Past `count` entries; None where the blob ends in one.
    pub fn entries<D: Hash>(self, hash: &D, blob: &[u8], count: u16) -> Option<Walk>
        ensures { result ≡ walked (D.Hash.digest hash.now) blob.now count self }
    {
        // `(0..count).try_fold(self, |walk, _| walk.entry(hash, blob))` leaves `returns`: no lemma of std says how its calls end.
        let mut walk = self;
        for _ in 0..count {
            walk = walk.entry(hash, blob)?;
        }
        Some(walk)
    }
}
