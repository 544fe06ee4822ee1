// Blobs: a block and four config bytes, and whether they fit a commitment.
ghost use Rattle.std.specs.Prelude.{◌≡◌};
ghost use Rattle.block.specs.Blobs.{fitted, parsed};

use crate::kind::{Kind, Reading};
use hash::Hash;
use register::commitment::{Commitment, Config};
use register::words::read_u16;

// Why a blob does not fit a commitment; of several the first is told.
#[derive(Clone, Copy, Debug, PartialEq, Eq)]
pub enum Misfit {
    Codec,
    DigestMismatch,
    ConfigMismatch,
    ContextMismatch,
}

// The block in front of `blob`, where exactly a config with no zero half stands behind it.
pub fn parse<D: Hash, K: Kind>(hash: &D, kind: &K, blob: &[u8]) -> Result<(Reading, Config), Misfit>
    ensures { result ≡ parsed blob.now (K.Kind.reads kind.now (D.Hash.digest hash.now) blob.now) }
{
    let reading = kind.read(hash, blob).ok_or(Misfit::Codec)?;
    if blob.len() - reading.len != 4 {
        return Err(Misfit::Codec);
    }
    let minimum = read_u16(blob, reading.len).ok_or(Misfit::Codec)?;
    let extra = read_u16(blob, reading.len + 2).ok_or(Misfit::Codec)?;
    if minimum == 0 || extra == 0 {
        return Err(Misfit::Codec);
    }
    Ok((reading, Config { minimum, extra }))
}

// The block in front of `blob`, where the blob fits the commitment.
pub fn fit<D: Hash, K: Kind>(
    hash: &D,
    kind: &K,
    commitment: &Commitment,
    blob: &[u8],
) -> Result<Reading, Misfit>
    ensures { result ≡ fitted (D.Hash.digest hash.now) (K.Kind.reads kind.now (D.Hash.digest hash.now)) commitment.now.bytes blob.now }
{
    let (reading, config) = parse(hash, kind, blob)?;
    if reading.digest.as_slice() != commitment.block() {
        return Err(Misfit::DigestMismatch);
    }
    if config != commitment.config() {
        return Err(Misfit::ConfigMismatch);
    }
    if hash.hash(reading.context(blob)).as_slice() != commitment.context() {
        return Err(Misfit::ContextMismatch);
    }
    Ok(reading)
}
