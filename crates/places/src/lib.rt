// Memory in places of one size: byte strings lie at the front of their places and never move. Memory, size and place are
// parameters and no struct, since the memory is lent by a C caller beside a plain struct.
#![tactic(auto)]

ghost use Rattle.std.specs.Prelude.{◌≡◌, ℕ, ◌+◌, ◌*◌, ◌≤◌, ◌≢◌, length, take, drop};
ghost use Rattle.places.specs.Places.{held};

// Writes `bytes` to the front of a place. All before and behind them stays, so what lies in other places does.
pub fn store(memory: &mut [u8], size: usize, place: usize, bytes: &[u8])
    requires fits { length bytes.now ≤ size }
    requires there { place * size + size ≤ length memory.old }
    ensures written { held size place (length bytes.now) memory.new ≡ bytes.now }
    ensures before { take (place * size) memory.new ≡ take (place * size) memory.old }
    ensures behind { drop (place * size + length bytes.now) memory.new ≡ drop (place * size + length bytes.now) memory.old }
    ensures others { (other n : ℕ) → (other ≢ place) → n ≤ size → held size other n memory.new ≡ held size other n memory.old }
{
    let from = place * size;
    memory[from..from + bytes.len()].copy_from_slice(bytes);
}

// The first `len` bytes of a place.
pub fn load(memory: &[u8], size: usize, place: usize, len: usize) -> &[u8]
    requires fits { len ≤ size }
    requires there { place * size + size ≤ length memory.now }
    ensures value { result.now ≡ held size place len memory.now }
    ensures len { length result.now ≡ len }
{
    let from = place * size;
    &memory[from..from + len]
}
