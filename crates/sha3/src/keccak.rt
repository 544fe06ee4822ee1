// KECCAK-f[1600]: the permutation of 25 lanes, lane (x, y) at x + 5 y.
ghost use Rattle.std.specs.Prelude.{◌≡◌, ℕ, ◌<◌, map};
ghost use Rattle.std.specs.List.{range_with_len};
ghost use Rattle.sha3.specs.Fips202.{D, Rnd, at, keccak_f, θ, ι, π, ρ, χ};

// RC of each round (FIPS 202, §3.2.5).
const CONSTANTS: [u64; 24] = [
    0x0000000000000001,
    0x0000000000008082,
    0x800000000000808a,
    0x8000000080008000,
    0x000000000000808b,
    0x0000000080000001,
    0x8000000080008081,
    0x8000000000008009,
    0x000000000000008a,
    0x0000000000000088,
    0x0000000080008009,
    0x000000008000000a,
    0x000000008000808b,
    0x800000000000008b,
    0x8000000000008089,
    0x8000000000008003,
    0x8000000000008002,
    0x8000000000000080,
    0x000000000000800a,
    0x800000008000000a,
    0x8000000080008081,
    0x8000000000008080,
    0x0000000080000001,
    0x8000000080008008,
];

// The turns of rho (§3.2.2, table 2), of lane (x, y) at x + 5 y.
const OFFSETS: [u32; 25] = [
    0, 1, 62, 28, 27, 36, 44, 6, 55, 20, 3, 10, 43, 25, 39, 41, 45, 15, 21, 8, 18, 2, 61, 56, 14,
];

// The state of which lane (x, y) is what `lane` gives. Written out: the loop that `array::from_fn` makes is not unrolled, and
// the hash was then at 0.11 of its speed.
fn lanes<F: Fn(usize, usize) -> u64>(lane: F) -> [u64; 25]
    requires { (x y : ℕ) → x < 5 → y < 5 → F.pre lane x y }
    ensures { (x y : ℕ) → x < 5 → y < 5 → F.post lane x y (at result x y) }
{
    [
        lane(0, 0),
        lane(1, 0),
        lane(2, 0),
        lane(3, 0),
        lane(4, 0),
        lane(0, 1),
        lane(1, 1),
        lane(2, 1),
        lane(3, 1),
        lane(4, 1),
        lane(0, 2),
        lane(1, 2),
        lane(2, 2),
        lane(3, 2),
        lane(4, 2),
        lane(0, 3),
        lane(1, 3),
        lane(2, 3),
        lane(3, 3),
        lane(4, 3),
        lane(0, 4),
        lane(1, 4),
        lane(2, 4),
        lane(3, 4),
        lane(4, 4),
    ]
}

// The steps of a round (§3.2). First, what theta adds to each lane of column x.
fn theta_sums(a: [u64; 25]) -> [u64; 5]
    ensures { result ≡ map (D a) (range_with_len 0 5) }
{
    let c = |x: usize| a[x] ^ a[x + 5] ^ a[x + 10] ^ a[x + 15] ^ a[x + 20];
    // The five entries are written out: as in `lanes`, `array::from_fn` would make a loop that is not unrolled.
    let (c0, c1, c2, c3, c4) = (c(0), c(1), c(2), c(3), c(4));
    [
        c4 ^ c1.rotate_left(1),
        c0 ^ c2.rotate_left(1),
        c1 ^ c3.rotate_left(1),
        c2 ^ c4.rotate_left(1),
        c3 ^ c0.rotate_left(1),
    ]
}

fn theta(a: [u64; 25]) -> [u64; 25]
    ensures { result ≡ θ a }
{
    let d = theta_sums(a);
    lanes(|x, y| a[x + 5 * y] ^ d[x])
}

fn rho(a: [u64; 25]) -> [u64; 25]
    ensures { result ≡ ρ a }
{
    lanes(|x, y| a[x + 5 * y].rotate_left(OFFSETS[x + 5 * y]))
}

fn pi(a: [u64; 25]) -> [u64; 25]
    ensures { result ≡ π a }
{
    lanes(|x, y| a[(x + 3 * y) % 5 + 5 * x])
}

fn chi(a: [u64; 25]) -> [u64; 25]
    ensures { result ≡ χ a }
{
    lanes(|x, y| a[x + 5 * y] ^ (!a[(x + 1) % 5 + 5 * y] & a[(x + 2) % 5 + 5 * y]))
}

fn iota(mut a: [u64; 25], ir: usize) -> [u64; 25]
    requires { ir < 24 }
    ensures { result ≡ ι a ir }
{
    a[0] ^= CONSTANTS[ir];
    a
}

fn round(a: [u64; 25], ir: usize) -> [u64; 25]
    requires { ir < 24 }
    ensures { result ≡ Rnd a ir }
{
    iota(chi(pi(rho(theta(a)))), ir)
}

pub fn keccak_f(state: [u64; 25]) -> [u64; 25]
    ensures { result ≡ keccak_f state }
{
    (0..24).fold(state, round)
}
