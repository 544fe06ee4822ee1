// SHA3-256, proved equal to the definition of FIPS 202.
#![tactic(auto)]

mod keccak;
mod sponge;

ghost use Rattle.sha3.specs.Examples.{Abc, Bits1600, Empty};
ghost use Rattle.sha3.specs.Fips202.{sha3_256};
ghost use Rattle.sha3.specs.Squeezing.{digest_long, digest-bytes};

use hash::Hash;

#[derive(Clone, Copy)]
pub struct Sha3;

impl Hash for Sha3 {
    ghost digest = { λ _. sha3_256 };

    ghost long = { λ h m. digest_long m };

    ghost bytes = { λ h m k. digest-bytes m k };

    fn hash_parts(&self, first: &[u8], second: &[u8]) -> [u8; 32] {
        sponge::digest(first, second)
    }
}

// Published digests, computed by the definition.
pub fn examples_stand()
    ensures { Empty × Abc × Bits1600 }
{}
