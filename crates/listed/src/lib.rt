// The block kind Listed: a head and a list of entries.
#![tactic(auto)]

ghost use Rattle.std.specs.Prelude.{◌≡◌};
ghost use Rattle.listed.specs.Listeds.{listed_reads};
ghost use Rattle.listed.specs.Walking.{listed_inside};
ghost use Rattle.listed.specs.Exactly;

use crate::walk::Walk;
use block::head::Head;
use block::kind::{Kind, Reading};
use hash::Hash;
use register::words::read_u16;

pub mod exact;
mod walk;

#[derive(Clone, Copy)]
pub struct Listed;

impl Kind for Listed {
    ghost reads = { λ _. listed_reads };

    ghost inside = { λ k. listed_inside };

    ghost alone = { λ k. Exactly.alone };

    fn read<D: Hash>(&self, hash: &D, blob: &[u8]) -> Option<Reading> {
        let head = Head::read(blob)?;
        let head_len = head.context_len + 41;
        let count = read_u16(blob, head_len)?;
        let start = hash.hash(&blob[0..head_len]);
        let walk = Walk {
            at: head_len + 2,
            digest: start,
        };
        let Walk { at, digest } = walk.entries(hash, blob, count)?;
        Some(Reading {
            len: at,
            context_from: 1,
            context_len: head.context_len,
            digest,
        })
    }
}
