// The scheme that was chosen.
ghost use Rattle.choice.specs.Choices.{good_by, opens_by};
ghost use Rattle.choice.specs.Names.{scheme_name, Named};
ghost use Rattle.std.proofs.Common.{rules};
ghost use Rattle.std.specs.Prelude.{Some};

use crate::names::{Choice, UnknownName, by_name};
use copy::Copies;
use hash::Hash;
use parity::coding::Parity;
use scheme::coding::Coding;
use scheme::fault::Fault;
use scheme::piece::Piece;
use scheme::scheme::Scheme;
use std::fmt;
use std::str::FromStr;

#[derive(Clone, Copy, Debug, PartialEq, Eq)]
pub enum SchemeChoice {
    Copy,
    Parity,
}

impl Scheme for SchemeChoice {
    ghost good = { good_by };

    ghost opens = { opens_by };

    fn check<D: Hash>(&self, hash: &D, coding: Coding<'_>, limit: usize, shard: Piece<'_>) -> bool {
        match self {
            SchemeChoice::Copy => Copies.check(hash, coding, limit, shard),
            SchemeChoice::Parity => Parity.check(hash, coding, limit, shard),
        }
    }

    fn decode<D: Hash>(
        &self,
        hash: &D,
        coding: Coding<'_>,
        shards: &[Piece<'_>],
        place: &mut [u8],
    ) -> Result<usize, Fault> {
        match self {
            SchemeChoice::Copy => Copies.decode(hash, coding, shards, place),
            SchemeChoice::Parity => Parity.decode(hash, coding, shards, place),
        }
    }
}

impl Choice for SchemeChoice {
    ghost name_of = { scheme_name };

    ghost apart = { Prim.search rules };

    fn all() -> &'static [SchemeChoice] {
        &[SchemeChoice::Copy, SchemeChoice::Parity]
    }

    fn name(self) -> &'static str {
        match self {
            SchemeChoice::Copy => "copy",
            SchemeChoice::Parity => "parity",
        }
    }
}

impl FromStr for SchemeChoice {
    type Err = UnknownName;

    ghost from_str_gives = { Named scheme_name };

    fn from_str(name: &str) -> Result<SchemeChoice, UnknownName> {
        by_name(name)
    }
}

impl fmt::Display for SchemeChoice {
    ghost output = { λ choice. Some (scheme_name choice) };

    fn fmt<W: fmt::Write>(&self, f: &mut fmt::Formatter<W>) -> fmt::Result {
        f.write_str(self.name())
    }
}
