// The sponge: blocks of the padded message go into the state, and the digest comes out.
ghost use Rattle.std.specs.Prelude.{◌≡◌, ◌+◌, ◌*◌, ◌/◌, ◌<◌, ◌≤◌, ◌++◌, length, drop, slice_index};
ghost use Rattle.sha3.specs.Fips202.{absorbed, keccak_f, lane, padded, sha3_256, squeezed, xored};

use crate::keccak::keccak_f;
use hash::parts::{after, array_at};
use std::array::from_fn;
use std::marker::Model;

// The bytes of a block: 1600 bits less the capacity of 512.
const RATE: usize = 136;

// A message in two parts, which are not joined in memory. `Parts` of `sha256` has the padding as a third, in a buffer.
#[derive(Drop)]
struct Message<'a> {
    head: &'a [u8],
    tail: &'a [u8],
}

impl<'a> Model for Message<'a> {
    ghost use Rattle.std.specs.Prelude.{ℕ, List, ◌++◌};

    ghost Value = { List ℕ };

    ghost view = { λ m. m.head.now ++ m.tail.now };
}

impl<'a> Message<'a> {
    // How many blocks the padded message has.
    fn blocks(&self) -> usize
        ensures { result ≡ length self.now / 136 + 1 }
    {
        let length = self.head.len() as u128 + self.tail.len() as u128;
        (length / RATE as u128 + 1) as usize
    }

    // The message without its first `n` bytes.
    fn after(&self, n: u128) -> Message<'a>
        ensures { result ≡ drop n self.now }
    {
        Message {
            head: after(self.head, n),
            tail: after(self.tail, n.saturating_sub(self.head.len() as u128)),
        }
    }

    // Byte `k` of the padded message: 01 and the padding's bits follow its last byte, and the last bit of the block is 1.
    fn byte(&self, k: usize) -> u8
        requires { k < 136 }
        ensures { result ≡ slice_index (padded self.now) k }
    {
        if k < self.head.len() {
            return self.head[k];
        }
        let rest = k - self.head.len();
        if rest < self.tail.len() {
            return self.tail[rest];
        }
        match (rest == self.tail.len(), k == RATE - 1) {
            (true, true) => 0x86,
            (true, false) => 0x06,
            (false, true) => 0x80,
            (false, false) => 0x00,
        }
    }

    // The lane from byte `k` of the padded message on.
    fn lane(&self, k: usize) -> u64
        requires { k + 8 ≤ 136 }
        ensures { result ≡ lane (padded self.now) k }
    {
        if k + 8 <= self.head.len() {
            return u64::from_le_bytes(array_at(self.head, k));
        }
        if k >= self.head.len() {
            let rest = k - self.head.len();
            if rest + 8 <= self.tail.len() {
                return u64::from_le_bytes(array_at(self.tail, rest));
            }
            // Past the message's end, and before the block's last byte.
            if rest > self.tail.len() && k + 8 < RATE {
                return 0;
            }
        }
        u64::from_le_bytes(from_fn(|b| self.byte(k + b)))
    }
}

// Adds the first block of the padded message to the state. A loop: with `from_fn(|l| if l < 17 { state[l] ^ message.lane(8 * l) }
// else { state[l] })`, which proves too, the hash was at 0.94 of its speed.
fn absorb(state: [u64; 25], message: &Message<'_>) -> [u64; 25]
    ensures { result ≡ xored state (padded message.now) 0 }
{
    let mut next = state;
    for (l, lane) in next[..RATE / 8].iter_mut().enumerate() {
        *lane ^= message.lane(8 * l);
    }
    next
}

// The state after every block of the padded message.
fn absorb_all(message: &Message<'_>) -> [u64; 25]
    ensures { result ≡ absorbed (padded message.now) (length message.now / 136 + 1) }
{
    (0..message.blocks()).fold(
        [0; 25],
        |state, i|
            ensures { result ≡ keccak_f (xored state (padded (drop (136 * i) message.entry.now)) 0) }
        { keccak_f(absorb(state, &message.after(RATE as u128 * i as u128))) },
    )
}

// The first 256 bits of the state.
fn squeeze(state: [u64; 25]) -> [u8; 32]
    ensures { result ≡ squeezed state }
{
    from_fn(|k| ((state[k / 8] >> (8 * (k % 8))) % 256) as u8)
}

// The digest of `first` followed by `second`.
pub fn digest(first: &[u8], second: &[u8]) -> [u8; 32]
    ensures { result ≡ sha3_256 (first.now ++ second.now) }
{
    squeeze(absorb_all(&Message {
        head: first,
        tail: second,
    }))
}
