// What shards are checked against and opened by: a commitment's config and its coding root.
ghost use Rattle.std.specs.Prelude.{◌≡◌};
ghost use Rattle.register.specs.Commitments.{config_of, root_of};

use register::commitment::{Commitment, Config};

#[derive(Clone, Copy)]
pub struct Coding<'a> {
    pub config: Config,
    pub root: &'a [u8],
}

impl<'a> Coding<'a> {
    pub fn of(commitment: &'a Commitment) -> Coding<'a>
        ensures config { result.config ≡ config_of commitment.now.bytes }
        ensures root { result.root.now ≡ root_of commitment.now.bytes }
    {
        Coding {
            config: commitment.config(),
            root: commitment.root(),
        }
    }
}
