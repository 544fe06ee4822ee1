// A commitment: what a block is filed under, in 100 bytes.
ghost use Rattle.std.specs.Prelude.{◌≡◌, Some};
ghost use Rattle.register.specs.Commitments.{block_of, bytes_in, committed, config_of, context_of, malformed_text, root_of};
ghost use Rattle.register.specs.Order.{order};

use std::cmp::Ordering;
use std::fmt;

#[derive(Clone, Copy, PartialEq, Eq, PartialOrd, Ord, Debug)]
pub struct Commitment {
    bytes: [u8; 100],
}

// How many shards open a block, and how many more there are.
#[derive(Clone, Copy, PartialEq, Eq, Debug)]
pub struct Config {
    pub minimum: u16,
    pub extra: u16,
}

// Why bytes are no commitment.
#[derive(Clone, Copy, Debug, PartialEq, Eq)]
pub enum Malformed {
    Length,
    ZeroMinimum,
    ZeroExtra,
}

impl fmt::Display for Malformed {
    ghost output = { λ malformed. Some (malformed_text malformed) };

    fn fmt<W: fmt::Write>(&self, f: &mut fmt::Formatter<W>) -> fmt::Result {
        f.write_str(match self {
            Malformed::Length => "a commitment has 100 bytes",
            Malformed::ZeroMinimum => "the commitment's minimum is zero",
            Malformed::ZeroExtra => "the commitment's extra is zero",
        })
    }
}

impl TryFrom<&[u8]> for Commitment {
    type Error = Malformed;

    ghost try_from_gives = { λ bytes result. bytes_in result ≡ committed bytes.now };

    fn try_from(bytes: &[u8]) -> Result<Commitment, Malformed> {
        let bytes = <[u8; 100]>::try_from(bytes).map_err(|_| Malformed::Length)?;
        let commitment = Commitment { bytes };
        let config = commitment.config();
        if config.minimum == 0 {
            return Err(Malformed::ZeroMinimum);
        }
        if config.extra == 0 {
            return Err(Malformed::ZeroExtra);
        }
        Ok(commitment)
    }
}

impl Commitment {
    pub fn as_bytes(&self) -> &[u8]
        ensures { result.now ≡ self.now.bytes }
    {
        &self.bytes
    }

    // The digest of the block.
    pub fn block(&self) -> &[u8]
        ensures { result.now ≡ block_of self.now.bytes }
    {
        &self.bytes[0..32]
    }

    // The coding root, which shards are checked against.
    pub fn root(&self) -> &[u8]
        ensures { result.now ≡ root_of self.now.bytes }
    {
        &self.bytes[32..64]
    }

    // The digest of the block's context.
    pub fn context(&self) -> &[u8]
        ensures { result.now ≡ context_of self.now.bytes }
    {
        &self.bytes[64..96]
    }

    pub fn config(&self) -> Config
        ensures { result ≡ config_of self.now.bytes }
    {
        let minimum = u16::from_be_bytes([self.bytes[96], self.bytes[97]]);
        let extra = u16::from_be_bytes([self.bytes[98], self.bytes[99]]);
        Config { minimum, extra }
    }

    // The derived order is that of the bytes. Kept as a promise: it says which order the derived one is.
    #[tactic(auto, using(crate::specs::ByteOrder::slice_order))]
    pub fn compare(&self, other: &Commitment) -> Ordering
        ensures { result ≡ order self.now.bytes other.now.bytes }
    {
        self.cmp(other)
    }
}
