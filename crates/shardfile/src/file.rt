// What a shard file holds, and what can be wrong with one.
ghost use Rattle.std.specs.Prelude.{◌≡◌};
ghost use Rattle.shardfile.specs.declared.file.Complaint.TheVariants.{Commitment as aCommitment, Memory, NotANumber, UnknownName as anUnknownName};

use choice::hashes::HashChoice;
use choice::kinds::KindChoice;
use choice::names::UnknownName;
use choice::schemes::SchemeChoice;
use register::commitment::{Commitment, Malformed};
use std::alloc::{AllocError, AllocFailed};
use std::num::ParseIntError;
use thiserror::Error;

// A shard as it came: the line that tells of it, its index, who sent it, its bytes.
#[derive(Drop)]
pub struct Arrival {
    pub line: usize,
    pub index: u16,
    pub sender: String,
    pub bytes: Vec<u8>,
}

#[derive(Drop)]
pub struct ShardFile {
    pub hash: HashChoice,
    pub scheme: SchemeChoice,
    pub kind: KindChoice,
    pub limit: usize,
    pub commitment: Commitment,
    pub arrivals: Vec<Arrival>,
}

// What is wrong with a line.
#[derive(Clone, Copy, Debug, Error)]
pub enum Complaint {
    #[error("no line begins so: hash, scheme, kind, limit, commitment or shard is expected")]
    UnknownWord,
    #[error("a word is missing")]
    WordMissing,
    #[error("a word too many")]
    WordTooMany,
    #[error("no such name: `covasluk --help` lists them")]
    UnknownName,
    #[error("not hexadecimal digits in pairs")]
    NotHex,
    #[error("not a number that fits: an index goes up to 65535")]
    NotANumber,
    #[error("the limit is 1 to 16384")]
    LimitRange,
    #[error("{0}")]
    Commitment(Malformed),
    #[error("this was given before")]
    Twice,
    #[error("the file ends with no commitment")]
    NoCommitment,
    #[error("out of memory")]
    Memory,
}

// The line, counted from 1, and what is wrong with it.
#[derive(Clone, Copy, Debug, Error)]
#[error("line {line}: {complaint}")]
pub struct LineFault {
    pub line: usize,
    pub complaint: Complaint,
}

// All by hand: a derived `From` does not say which complaint it makes. Nor can a case hold a `ParseIntError`, which is no `Copy`.
impl From<UnknownName> for Complaint {
    ghost from_gives = { λ _ complaint. complaint ≡ anUnknownName };

    fn from(_error: UnknownName) -> Complaint {
        Complaint::UnknownName
    }
}

impl From<Malformed> for Complaint {
    ghost from_gives = { λ malformed complaint. complaint ≡ aCommitment malformed };

    fn from(malformed: Malformed) -> Complaint {
        Complaint::Commitment(malformed)
    }
}

impl From<ParseIntError> for Complaint {
    ghost from_gives = { λ _ complaint. complaint ≡ NotANumber };

    fn from(_error: ParseIntError) -> Complaint {
        Complaint::NotANumber
    }
}

impl From<AllocError> for Complaint {
    ghost from_gives = { λ _ complaint. complaint ≡ Memory };

    fn from(_error: AllocError) -> Complaint {
        Complaint::Memory
    }
}

impl<T: Drop> From<AllocFailed<T>> for Complaint {
    ghost from_gives = { λ _ complaint. complaint ≡ Memory };

    fn from(_refused: AllocFailed<T>) -> Complaint {
        Complaint::Memory
    }
}
