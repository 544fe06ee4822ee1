// Opening picks: to the blob in them, or to the first fault.
ghost use Rattle.std.specs.Prelude.{◌≡◌, ◌-◌, ◌<◌, ◌≤◌, map, length};
ghost use Rattle.parity.specs.Framings.{framed_in};
ghost use Rattle.parity.specs.Parities.{opened};
ghost use Rattle.scheme.specs.Told.{Fits, Leaves, told};
ghost use Rattle.tree.specs.Frames.{unframed};

use crate::framing::Framing;
use crate::picks::{count, even, width};
use scheme::fault::Fault;
use tree::frame::piece_length;

// Opens picks of one length. Nothing is written before the last fault is ruled out.
fn unframe(framing: &Framing<'_>, place: &mut [u8]) -> Result<usize, Fault>
    ensures tells { told result place.new ≡ unframed (length place.old) (length framing.now.picks.now - 1) framing.now.width (framed_in framing.now) }
    ensures within { Fits result place.old }
    ensures behind { Leaves result place.old place.new }
{
    let width = framing.width;
    let pieces = framing.picks.len() - 1;
    if pieces * width.min(4) < 4 {
        return Err(Fault::BadLength);
    }
    let length = framing.blob_length();
    if piece_length(pieces as u16, length) != width as u64 {
        return Err(Fault::BadLength);
    }
    let length = length as usize;
    if !framing.zeros(4 + length, pieces * width) {
        return Err(Fault::Padding);
    }
    if length > place.len() {
        return Err(Fault::TooLong);
    }
    framing.write(length, place);
    Ok(length)
}

// Opens the picks for all pieces and the parity.
pub fn open(picks: &[&[u8]], place: &mut [u8]) -> Result<usize, Fault>
    requires some { 1 < length picks.now }
    requires few { length picks.now ≤ 64 }
    ensures tells { told result place.new ≡ opened (length place.old) (length picks.now - 1) (map (λ x. x.now) picks.now) }
    ensures within { Fits result place.old }
    ensures behind { Leaves result place.old place.new }
{
    if count(picks) < picks.len() - 1 {
        return Err(Fault::TooFew);
    }
    let width = width(picks);
    if !even(picks, width) {
        return Err(Fault::Uneven);
    }
    unframe(&Framing { picks, width }, place)
}
