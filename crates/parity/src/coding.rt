// The scheme Parity.
ghost use Rattle.std.specs.Prelude.{◌≡◌};
ghost use Rattle.parity.specs.Parities.{parity_good, parity_opens, shaped};

use crate::open::open;
use crate::picks::picks;
use hash::Hash;
use register::commitment::Config;
use scheme::coding::Coding;
use scheme::fault::Fault;
use scheme::piece::Piece;
use scheme::scheme::Scheme;
use tree::path::{depth, rooted};

#[derive(Clone, Copy)]
pub struct Parity;

fn shaped(config: Config) -> bool
    ensures { result ≡ shaped config }
{
    config.extra == 1 && (1..=63).contains(&config.minimum)
}

impl Scheme for Parity {
    ghost good = { λ _ digest config root limit. parity_good digest config root };

    ghost opens = { λ _ digest config root. parity_opens config };

    fn check<D: Hash>(&self, hash: &D, coding: Coding<'_>, limit: usize, shard: Piece<'_>) -> bool {
        let Coding { config, root } = coding;
        shaped(config)
            && shard.index <= config.minimum
            && rooted(
                hash,
                depth(u32::from(config.minimum)),
                root,
                shard.index,
                shard.bytes,
            )
    }

    fn decode<D: Hash>(
        &self,
        hash: &D,
        coding: Coding<'_>,
        shards: &[Piece<'_>],
        place: &mut [u8],
    ) -> Result<usize, Fault> {
        let config = coding.config;
        if !shaped(config) {
            return Err(Fault::TooFew);
        }
        let found = picks(shards, config.minimum);
        open(&found[..=usize::from(config.minimum)], place)
    }
}
