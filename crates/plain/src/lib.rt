// The block kind Plain: a head and one payload.
#![tactic(auto)]

ghost use Rattle.std.specs.Prelude.{◌≡◌};
ghost use Rattle.plain.specs.Plains.{plain_reads};
ghost use Rattle.plain.specs.Exactly;
ghost use Rattle.std.proofs.Common.{rules};

use block::head::Head;
use block::kind::{Kind, Reading};
use hash::Hash;
use register::words::read_u16;

pub mod exact;

#[derive(Clone, Copy)]
pub struct Plain;

impl Kind for Plain {
    ghost reads = { λ _. plain_reads };

    ghost inside = { Prim.search rules };

    ghost alone = { λ k. Exactly.alone };

    fn read<D: Hash>(&self, hash: &D, blob: &[u8]) -> Option<Reading> {
        let head = Head::read(blob)?;
        let payload_len = usize::from(read_u16(blob, head.context_len + 41)?);
        let len = head.context_len + 43 + payload_len;
        let digest = hash.hash(blob.get(..len)?);
        Some(Reading {
            len,
            context_from: 1,
            context_len: head.context_len,
            digest,
        })
    }
}
