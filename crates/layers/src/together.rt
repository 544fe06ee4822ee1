// Any hash, scheme, block kind and roster together.
ghost use Rattle.layers.specs.Together.{meaning_of, roster_of};
ghost use Rattle.std.proofs.Common.{rules};

use crate::node::Node;
use block::kind::Kind;
use hash::Hash;
use reconstruct::coder::Coder;
use reconstruct::outcome::Outcome;
use register::commitment::Commitment;
use register::counters::Epoch;
use register::key::Key;
use rosters::roster::Roster;
use scheme::coding::Coding;
use scheme::piece::Piece;
use scheme::scheme::Scheme;

#[derive(Clone, Copy)]
pub struct Layers<D, S, K, R> {
    pub hash: D,
    pub scheme: S,
    pub kind: K,
    pub roster: R,
}

impl<D: Hash, S: Scheme, K: Kind, R: Roster> Node for Layers<D, S, K, R> {
    ghost meaning = { λ n. meaning_of (D.Hash.digest n.hash) (S.Scheme.good n.scheme) (S.Scheme.opens n.scheme) (K.Kind.reads n.kind) };

    ghost roster = { λ n. roster_of (R.Roster.keys n.roster) (R.Roster.own n.roster) };

    ghost fair = { Prim.search rules };

    fn check(&self, commitment: &Commitment, limit: usize, shard: Piece<'_>) -> bool {
        self.scheme
            .check(&self.hash, Coding::of(commitment), limit, shard)
    }

    fn rebuild(
        &self,
        commitment: &Commitment,
        shards: &mut [Piece<'_>],
        checked: usize,
        verdicts: &mut [bool],
        place: &mut [u8],
    ) -> Option<Outcome> {
        let coder = Coder {
            hash: &self.hash,
            scheme: &self.scheme,
            kind: &self.kind,
            commitment,
        };
        coder.reconstruct(shards, checked, verdicts, place)
    }

    fn knows(&self, epoch: Epoch) -> bool {
        self.roster.known(epoch)
    }

    fn index_of(&self, epoch: Epoch, key: &Key) -> Option<u16> {
        self.roster.index_of(epoch, key)
    }

    fn own_index(&self, epoch: Epoch) -> Option<u16> {
        self.roster.own_index(epoch)
    }
}
