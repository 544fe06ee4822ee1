// The hash that was chosen.
ghost use Rattle.choice.specs.Choices.{digest_by};
ghost use Rattle.sha256.specs.Digests as Sha256Digests;
ghost use Rattle.sha3.specs.Squeezing as Sha3Digests;
ghost use Rattle.choice.specs.declared.hashes.HashChoice.TheVariants.{Sha256, Sha3};
ghost use Rattle.choice.specs.Names.{hash_name, Named};
ghost use Rattle.std.proofs.Common.{rules};
ghost use Rattle.std.specs.Prelude.{Some};

use crate::names::{Choice, UnknownName, by_name};
use hash::Hash;
use sha3::Sha3;
use sha256::Sha256;
use std::fmt;
use std::str::FromStr;

#[derive(Clone, Copy, Debug, PartialEq, Eq)]
pub enum HashChoice {
    Sha256,
    Sha3,
}

impl Hash for HashChoice {
    ghost digest = { digest_by };

    ghost long = { elim [ Sha256 ↦ λ m. Sha256Digests.digest_long m | Sha3 ↦ λ m. Sha3Digests.digest_long m ] };

    ghost bytes = { elim [ Sha256 ↦ λ m k. Sha256Digests.digest-bytes m k | Sha3 ↦ λ m k. Sha3Digests.digest-bytes m k ] };

    fn hash_parts(&self, first: &[u8], second: &[u8]) -> [u8; 32] {
        match self {
            HashChoice::Sha256 => Sha256.hash_parts(first, second),
            HashChoice::Sha3 => Sha3.hash_parts(first, second),
        }
    }
}

impl Choice for HashChoice {
    ghost name_of = { hash_name };

    ghost apart = { Prim.search rules };

    fn all() -> &'static [HashChoice] {
        &[HashChoice::Sha256, HashChoice::Sha3]
    }

    fn name(self) -> &'static str {
        match self {
            HashChoice::Sha256 => "sha-256",
            HashChoice::Sha3 => "sha3-256",
        }
    }
}

impl FromStr for HashChoice {
    type Err = UnknownName;

    ghost from_str_gives = { Named hash_name };

    fn from_str(name: &str) -> Result<HashChoice, UnknownName> {
        by_name(name)
    }
}

impl fmt::Display for HashChoice {
    ghost output = { λ choice. Some (hash_name choice) };

    fn fmt<W: fmt::Write>(&self, f: &mut fmt::Formatter<W>) -> fmt::Result {
        f.write_str(self.name())
    }
}
