// SHA-256, proved equal to the definition of FIPS 180-4 in specs/.
#![tactic(auto)]

mod buffer;
mod compression;
mod message;
mod words;

ghost use Rattle.std.specs.Prelude.{◌≡◌, ◌+◌, ◌/◌, ◌<◌, ◌++◌, length};
ghost use Rattle.sha256.specs.Examples.{Examples};
ghost use Rattle.sha256.specs.Fips180.{block, byte_of, bytes, compress, hashes, sha256, words};
ghost use Rattle.sha256.specs.Digests.{digest_long, digest-bytes};

use compression::next_hash;
use hash::Hash;
use message::{Parts, padding_of};

const INITIAL: [u32; 8] = [
    0x6a09e667, 0xbb67ae85, 0x3c6ef372, 0xa54ff53a, 0x510e527f, 0x9b05688c, 0x1f83d9ab, 0x5be0cd19,
];

fn byte_of(h: [u32; 8], k: usize) -> u8
    requires { k < 32 }
    ensures { result ≡ byte_of h k }
{
    h[k / 4].to_be_bytes()[k % 4]
}

fn bytes_of(h: [u32; 8]) -> [u8; 32]
    ensures { result ≡ bytes h }
{
    std::array::from_fn(|k| byte_of(h, k))
}

// The hash value after every whole block of the padded message.
fn last_hash(padded: &Parts) -> [u32; 8]
    ensures { result ≡ hashes (length padded.now / 64) padded.now }
{
    (0..padded.blocks()).fold(
        INITIAL,
        |h, i|
            requires { i < length padded.now / 64 }
            ensures { result ≡ compress h (words (block i padded.entry.now)) }
        { next_hash(h, padded.block(i)) },
    )
}

#[derive(Clone, Copy)]
pub struct Sha256;

impl Hash for Sha256 {
    ghost digest = { λ _. sha256 };

    ghost long = { λ h m. digest_long m };

    ghost bytes = { λ h m k. digest-bytes m k };

    fn hash_parts(&self, first: &[u8], second: &[u8]) -> [u8; 32] {
        let padding = padding_of(first.len() as u128 + second.len() as u128);
        bytes_of(last_hash(&Parts::new(first, second, padding.as_slice())))
    }
}

// The definition gives the digests of the standard's examples.
pub fn examples_stand()
    ensures { Examples }
{}
