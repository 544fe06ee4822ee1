// The length frame: a blob's length in four bytes, the blob, and zeros up to equal pieces.
ghost use Rattle.std.specs.Prelude.{◌≡◌};
ghost use Rattle.tree.specs.Frames.{piece_length};

// How long each of `pieces` pieces of a framed blob is; 0 where there are no pieces.
pub fn piece_length(pieces: u16, blob: u32) -> u64
    ensures { result ≡ piece_length pieces blob }
{
    if pieces == 0 {
        return 0;
    }
    (u64::from(blob) + 4).div_ceil(u64::from(pieces))
}
