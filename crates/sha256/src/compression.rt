// The hash computation of SHA-256 over one block.
ghost use Rattle.std.specs.Prelude.{◌≡◌, ◌+◌, ◌*◌, ◌<◌, ◌≤◌, slice_index};
ghost use Rattle.sha256.specs.Fips180.{K, compress, round, sums};
ghost use Rattle.sha256.specs.Window.{rounds_over, slid, slide};

use crate::words::{big_sigma0, big_sigma1, ch, maj, small_sigma0, small_sigma1};

const CONSTANTS: [u32; 64] = [
    0x428a2f98, 0x71374491, 0xb5c0fbcf, 0xe9b5dba5, 0x3956c25b, 0x59f111f1, 0x923f82a4, 0xab1c5ed5,
    0xd807aa98, 0x12835b01, 0x243185be, 0x550c7dc3, 0x72be5d74, 0x80deb1fe, 0x9bdc06a7, 0xc19bf174,
    0xe49b69c1, 0xefbe4786, 0x0fc19dc6, 0x240ca1cc, 0x2de92c6f, 0x4a7484aa, 0x5cb0a9dc, 0x76f988da,
    0x983e5152, 0xa831c66d, 0xb00327c8, 0xbf597fc7, 0xc6e00bf3, 0xd5a79147, 0x06ca6351, 0x14292967,
    0x27b70a85, 0x2e1b2138, 0x4d2c6dfc, 0x53380d13, 0x650a7354, 0x766a0abb, 0x81c2c92e, 0x92722c85,
    0xa2bfe8a1, 0xa81a664b, 0xc24b8b70, 0xc76c51a3, 0xd192e819, 0xd6990624, 0xf40e3585, 0x106aa070,
    0x19a4c116, 0x1e376c08, 0x2748774c, 0x34b0bcb5, 0x391c0cb3, 0x4ed8aa4a, 0x5b9cca4f, 0x682e6ff3,
    0x748f82ee, 0x78a5636f, 0x84c87814, 0x8cc70208, 0x90befffa, 0xa4506ceb, 0xbef9a3f7, 0xc67178f2,
];

fn constant(t: usize) -> u32
    requires { t < 64 }
    ensures { result ≡ slice_index K t }
{
    CONSTANTS[t]
}

// Round t with the word w of the message schedule: the new working variables a to h.
fn one_round(t: usize, w: u32, s: [u32; 8]) -> [u32; 8]
    requires { t < 64 }
    ensures { result ≡ round (slice_index K t) w s }
{
    let [a, b, c, d, e, f, g, h] = s;
    let t1 = h
        .wrapping_add(big_sigma1(e))
        .wrapping_add(ch(e, f, g))
        .wrapping_add(constant(t))
        .wrapping_add(w);
    let t2 = big_sigma0(a).wrapping_add(maj(a, b, c));
    [t1.wrapping_add(t2), a, b, c, d.wrapping_add(t1), e, f, g]
}

// Sixteen rounds from round t on, where w holds W t to W (t + 15).
// Written out: with a loop, `for j in 0..16 { s = one_round(t + j, w[j], s) }`, the hash takes a fifth longer.
fn sixteen_rounds(t: usize, w: [u32; 16], s: [u32; 8]) -> [u32; 8]
    requires { t + 16 ≤ 64 }
    ensures { result ≡ rounds_over 16 t w s }
{
    let s1 = one_round(t, w[0], s);
    let s2 = one_round(t + 1, w[1], s1);
    let s3 = one_round(t + 2, w[2], s2);
    let s4 = one_round(t + 3, w[3], s3);
    let s5 = one_round(t + 4, w[4], s4);
    let s6 = one_round(t + 5, w[5], s5);
    let s7 = one_round(t + 6, w[6], s6);
    let s8 = one_round(t + 7, w[7], s7);
    let s9 = one_round(t + 8, w[8], s8);
    let s10 = one_round(t + 9, w[9], s9);
    let s11 = one_round(t + 10, w[10], s10);
    let s12 = one_round(t + 11, w[11], s11);
    let s13 = one_round(t + 12, w[12], s12);
    let s14 = one_round(t + 13, w[13], s13);
    let s15 = one_round(t + 14, w[14], s14);
    one_round(t + 15, w[15], s15)
}

// The window of the message schedule, W t to W (t + 15), moved on by one word.
fn slide_one(w: [u32; 16]) -> [u32; 16]
    ensures { result ≡ slide w }
{
    let next = small_sigma1(w[14])
        .wrapping_add(w[9])
        .wrapping_add(small_sigma0(w[1]))
        .wrapping_add(w[0]);
    // Written out: with `w.rotate_left(1); w[15] = next; w`, which proves too, the hash was at 0.44 of its speed, and
    // `std::array::from_fn(|j| if j < 15 { w[j + 1] } else { next })` is no plainer.
    [
        w[1], w[2], w[3], w[4], w[5], w[6], w[7], w[8], w[9], w[10], w[11], w[12], w[13], w[14],
        w[15], next,
    ]
}

fn slide_sixteen(w: [u32; 16]) -> [u32; 16]
    ensures { result ≡ slid 16 w }
{
    (0..16usize).fold(
        w,
        |w, _|
            ensures { result ≡ slide w }
        { slide_one(w) },
    )
}

fn add_words(x: [u32; 8], y: [u32; 8]) -> [u32; 8]
    ensures { result ≡ sums x y }
{
    std::array::from_fn(|i| x[i].wrapping_add(y[i]))
}

// The hash value after the block of the words m.
pub fn next_hash(h: [u32; 8], m: [u32; 16]) -> [u32; 8]
    ensures { result ≡ compress h m }
{
    let mut w = m;
    let mut s = sixteen_rounds(0, w, h);
    // A fold would carry both, `(1..4).fold((s, w), |(s, w), i| ..)`, and is no plainer.
    // Two names, since the borrow checker doesn't cover `w = slide_sixteen(w)`, a call's result in a local array, yet.
    for i in 1..4 {
        let following = slide_sixteen(w);
        let after = sixteen_rounds(16 * i, following, s);
        w = following;
        s = after;
    }
    add_words(s, h)
}
