// The framed blob in picks, read by position: what is missing is the exclusive or of the others.
ghost use Rattle.std.specs.Prelude.{◌≡◌, ◌+◌, ◌%◌, ◌^◌, ◌<◌, ◌≤◌, true, map, length, take, drop, slice_index};
ghost use Rattle.std.specs.List.{range_with_len};
ghost use Rattle.parity.specs.Parities.{even, xored};

// Picks that are `width` long where they are there: those of 1 to 63 pieces, and of the parity.
#[derive(Clone, Copy)]
pub struct Framing<'a> {
    pub picks: &'a [&'a [u8]],
    pub width: usize,
    ghost some: { 1 < length picks.now },
    ghost few: { length picks.now ≤ 64 },
    ghost evened: { even width (map (λ x. x.now) picks.now) ≡ true },
}

impl<'a> Framing<'a> {
    ghost use Rattle.std.proofs.Math.Seq.{paste};
    ghost use Rattle.parity.specs.Framings.{framed_in, size};
    ghost use Rattle.register.specs.Words.{word};
    ghost use Rattle.tree.specs.Frames.{zeros};

    // The byte at `i`.
    fn byte(&self, i: usize) -> u8
        requires { i < size self.now }
        ensures { result ≡ slice_index (framed_in self.now) i }
    {
        let bytes = self.picks[i / self.width];
        if bytes.is_empty() {
            xor_at(self.picks, i % self.width)
        } else {
            byte_or_zero(bytes, i % self.width)
        }
    }

    // The length that the framed blob begins with.
    pub fn blob_length(&self) -> u32
        requires { 4 ≤ size self.now }
        ensures { result ≡ word (framed_in self.now) 0 4 }
    {
        u32::from_be_bytes([self.byte(0), self.byte(1), self.byte(2), self.byte(3)])
    }

    // Whether the framed blob, which ends at `end`, has only zeros from `start` on.
    pub fn zeros(&self, start: usize, end: usize) -> bool
        requires whole { end ≡ size self.now }
        requires within { start ≤ end }
        ensures { result ≡ zeros (drop start (framed_in self.now)) }
    {
        (start..end).all(|i| self.byte(i) == 0)
    }

    // Writes what the framed blob has from `start` on, where that lies in one piece.
    fn copy_run(&self, start: usize, out: &mut [u8])
        requires within { start < size self.now }
        requires inside { start % self.now.width + length out.old ≤ self.now.width }
        ensures { out.new ≡ take (length out.old) (drop start (framed_in self.now)) }
    {
        let bytes = self.picks[start / self.width];
        let at = start % self.width;
        if bytes.is_empty() {
            xor_from(self.picks, at, out);
        } else {
            copy_from(bytes, at, out);
        }
    }

    // Writes `len` bytes of the framed blob, from its fifth on, to the front of `place`, piece by piece. A `while`: the
    // first run is shorter than the others, and after a loop over `place.chunks_mut(..)` nothing is known of what it wrote.
    pub fn write(&self, len: usize, place: &mut [u8])
        requires within { 4 + len ≤ size self.now }
        requires room { len ≤ length place.old }
        ensures { place.new ≡ paste place.old 0 (drop 4 (framed_in self.now)) len }
    {
        let mut done = 0;
        while done < len {
            let start = 4 + done;
            let run = (self.width - start % self.width).min(len - done);
            self.copy_run(start, &mut place[done..done + run]);
            done += run;
        }
    }
}

// The byte at `i`, 0 past the end.
fn byte_or_zero(bytes: &[u8], i: usize) -> u8
    ensures { result ≡ slice_index bytes.now i }
{
    bytes.get(i).copied().unwrap_or(0)
}

// The exclusive or of all bytes at `i`.
fn xor_at(picks: &[&[u8]], i: usize) -> u8
    ensures { result ≡ xored i (map (λ x. x.now) picks.now) }
{
    picks.iter().fold(0, |x, bytes| x ^ byte_or_zero(bytes, i))
}

// Writes the exclusive or of all bytes from `at` on.
fn xor_from(picks: &[&[u8]], at: usize, out: &mut [u8])
    requires { at + length out.old < 2 ^ 64 }
    ensures { out.new ≡ map (λ k. xored (at + k) (map (λ x. x.now) picks.now)) (range_with_len 0 (length out.old)) }
{
    for (k, byte) in out.iter_mut().enumerate() {
        *byte = xor_at(picks, at + k);
    }
}

// Writes what `bytes` has from `at` on. `xor_from` over the one pick would do the same, but byte by byte, where
// `copy_from_slice` copies at once.
fn copy_from(bytes: &[u8], at: usize, out: &mut [u8])
    requires { at + length out.old ≤ length bytes.now }
    ensures { out.new ≡ take (length out.old) (drop at bytes.now) }
{
    out.copy_from_slice(&bytes[at..at + out.len()]);
}
