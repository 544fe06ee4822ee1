// Comparing and writing byte strings.
ghost use Rattle.std.specs.Prelude.{◌≡◌, ◌++◌, length, drop, if◌then◌else◌, is_ok, nat_le};
ghost use Rattle.register.specs.Order.{order};

use std::cmp::Ordering;

// That a slice is too short for what is to be written there.
#[derive(Clone, Copy, Debug, PartialEq, Eq)]
pub struct NoRoom;

// Writes `bytes` to the front of `place`; where they do not fit, nothing is written.
pub fn write_front(place: &mut [u8], bytes: &[u8]) -> Result<(), NoRoom>
    ensures fits { is_ok result ≡ nat_le (length bytes.now) (length place.old) }
    ensures after { place.new ≡ (if is_ok result then bytes.now ++ drop (length bytes.now) place.old else place.old) }
{
    if bytes.len() > place.len() {
        return Err(NoRoom);
    }
    place[..bytes.len()].copy_from_slice(bytes);
    Ok(())
}

// As unsigned bytes from the first; it ends at the first pair that differs. Kept as a promise: it says which order that of slices is.
#[tactic(auto, using(crate::specs::ByteOrder::slice_order))]
pub fn compare(a: &[u8], b: &[u8]) -> Ordering
    ensures { result ≡ order a.now b.now }
{
    a.cmp(b)
}
