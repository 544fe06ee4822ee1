// The block kind that was chosen.
ghost use Rattle.choice.specs.Choices.{reads_by};
ghost use Rattle.std.proofs.Common.{rules};
ghost use Rattle.listed.specs.Walking as ListedWalking;
ghost use Rattle.choice.specs.declared.kinds.KindChoice.TheVariants.{Plain, Listed};
ghost use Rattle.listed.specs.Exactly as ListedExactly;
ghost use Rattle.plain.specs.Exactly as PlainExactly;
ghost use Rattle.choice.specs.Names.{kind_name, Named};
ghost use Rattle.std.specs.Prelude.{Some};

use crate::names::{Choice, UnknownName, by_name};
use block::kind::{Kind, Reading};
use hash::Hash;
use listed::Listed;
use plain::Plain;
use std::fmt;
use std::str::FromStr;

#[derive(Clone, Copy, Debug, PartialEq, Eq)]
pub enum KindChoice {
    Plain,
    Listed,
}

impl Kind for KindChoice {
    ghost reads = { reads_by };

    ghost inside = { elim [
      | Plain ↦ λ digest blob. Prim.search rules
      | Listed ↦ λ digest blob. ListedWalking.listed_inside digest blob
    ] };

    ghost alone = { elim [ Plain ↦ PlainExactly.alone | Listed ↦ ListedExactly.alone ] };

    fn read<D: Hash>(&self, hash: &D, blob: &[u8]) -> Option<Reading> {
        match self {
            KindChoice::Plain => Plain.read(hash, blob),
            KindChoice::Listed => Listed.read(hash, blob),
        }
    }
}

impl Choice for KindChoice {
    ghost name_of = { kind_name };

    ghost apart = { Prim.search rules };

    fn all() -> &'static [KindChoice] {
        &[KindChoice::Plain, KindChoice::Listed]
    }

    fn name(self) -> &'static str {
        match self {
            KindChoice::Plain => "plain",
            KindChoice::Listed => "listed",
        }
    }
}

impl FromStr for KindChoice {
    type Err = UnknownName;

    ghost from_str_gives = { Named kind_name };

    fn from_str(name: &str) -> Result<KindChoice, UnknownName> {
        by_name(name)
    }
}

impl fmt::Display for KindChoice {
    ghost output = { λ choice. Some (kind_name choice) };

    fn fmt<W: fmt::Write>(&self, f: &mut fmt::Formatter<W>) -> fmt::Result {
        f.write_str(self.name())
    }
}
