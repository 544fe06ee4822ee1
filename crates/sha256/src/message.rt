// The padded message as three parts that are not joined in memory, read a block at a time.
ghost use Rattle.std.specs.Prelude.{◌≡◌, ℕ, ◌+◌, ◌*◌, ◌/◌, ◌^◌, ◌<◌, ◌≤◌, List, ◌++◌, length, take, drop};
ghost use Rattle.std.proofs.Math.Seq.{paste};
ghost use Rattle.sha256.specs.Fips180.{block, padding, word, words};

use crate::buffer::Buffer;
use hash::parts::{after, array_at};
use std::marker::Model;

fn put(bytes: &mut [u8; 72], at: usize, field: [u8; 8])
    requires { at ≤ 64 }
    ensures { bytes.new ≡ paste bytes.old at field 8 }
{
    bytes[at..at + 8].copy_from_slice(&field);
}

// The padding of a message of n bytes.
pub fn padding_of(n: u128) -> Buffer<72>
    requires { n < 2 ^ 65 }
    ensures { result ≡ padding n }
{
    let zeros = (119 - (n % 64) as usize) % 64;
    let bit_length = (n * 8 % 0x1_0000_0000_0000_0000) as u64;
    // No `append` of the zeros: they are there, and a copy of them would have the archive for C want `memset`.
    let mut bytes = [0; 72];
    bytes[0] = 0x80;
    put(&mut bytes, zeros + 1, bit_length.to_be_bytes());
    Buffer::of(bytes, zeros + 9)
}

// The word at j of a block.
fn word_at(block: &[u8], j: usize) -> u32
    requires { j + 4 ≤ length block.now }
    ensures { result ≡ word block.now j }
{
    u32::from_be_bytes(array_at::<4>(block, j))
}

fn block_words(block: &[u8]) -> [u32; 16]
    requires { length block.now ≡ 64 }
    ensures { result ≡ words block.now }
{
    std::array::from_fn(|j| word_at(block, 4 * j))
}

// A message in two parts, and its padding. Contracts see the three joined. No type for this and for the `Message` of `sha3`:
// here the padding is bytes of a buffer, which a block may lie across; there each byte of it is computed from its place.
#[derive(Drop)]
pub struct Parts<'a> {
    first: &'a [u8],
    second: &'a [u8],
    padding: &'a [u8],
}

impl<'a> Model for Parts<'a> {
    ghost Value = { List ℕ };

    ghost view = { λ p. p.first.now ++ (p.second.now ++ p.padding.now) };
}

impl<'a> Parts<'a> {
    pub fn new(first: &'a [u8], second: &'a [u8], padding: &'a [u8]) -> Self
        ensures { result ≡ first.now ++ (second.now ++ padding.now) }
    {
        Parts {
            first,
            second,
            padding,
        }
    }

    // How many whole blocks there are.
    pub fn blocks(&self) -> usize
        ensures { result ≡ length self.now / 64 }
    {
        let bytes = self.first.len() as u128
            + self.second.len() as u128
            + self.padding.len() as u128;
        (bytes / 64) as usize
    }

    // A block's bytes from `at` on, or what is left, copied from the parts that they lie in.
    fn gather(&self, at: u128) -> Buffer<64>
        ensures { result ≡ take 64 (drop at self.now) }
    {
        let before_second = self.first.len() as u128;
        let before_padding = before_second + self.second.len() as u128;
        let mut block = Buffer::new();
        block.append(after(self.first, at));
        block.append(after(self.second, at.saturating_sub(before_second)));
        block.append(after(self.padding, at.saturating_sub(before_padding)));
        block
    }

    // The words of block i. A block that lies whole in one part is read where it lies.
    pub fn block(&self, i: usize) -> [u32; 16]
        requires { i < length self.now / 64 }
        ensures { result ≡ words (block i self.now) }
    {
        let at = 64 * i as u128;
        // As in `gather`, and no method for both: contracts see the parts joined, so its own could not say where a part begins.
        let before_second = self.first.len() as u128;
        let before_padding = before_second + self.second.len() as u128;
        if at + 64 <= before_second {
            let from = at as usize;
            block_words(&self.first[from..from + 64])
        } else if before_second <= at && at + 64 <= before_padding {
            let from = (at - before_second) as usize;
            block_words(&self.second[from..from + 64])
        } else {
            block_words(self.gather(at).as_slice())
        }
    }
}
