// Bytes as hexadecimal digits.
ghost use Rattle.std.specs.Prelude.{◌≡◌, ◌/◌, ◌⊎◌, length, vec_len, OnOk, IfErr};
ghost use Rattle.shardfile.specs.Hex.{Reads, byte_of, digit_of};

use crate::file::Complaint;

pub fn digit(c: u8) -> Option<u8>
    ensures { result ≡ digit_of c }
{
    let value = char::from(c).to_digit(16)?;
    Some(value as u8)
}

pub fn byte(high: u8, low: u8) -> Option<u8>
    ensures { result ≡ byte_of (digit_of high) (digit_of low) }
{
    let h = digit(high)?;
    let l = digit(low)?;
    Some(h * 16 + l)
}

// Reads the digits in `word` to bytes behind those in `out`. The kit's `hex` would be no plainer, with a `Vec` more and an
// error to turn: `out.extend_from_slice(&hex::decode(heap, word).map_err(..)?)?`.
pub fn push_hex(out: &mut Vec<u8>, word: &[u8]) -> Result<(), Complaint>
    ensures read { OnOk result (Reads out.old.items (vec_len out.old) word.now (length word.now / 2) out.new.items (vec_len out.new)) }
    ensures refused { IfErr result (λ e. (e ≡ Complaint.NotHex) ⊎ (e ≡ Complaint.Memory)) }
{
    let (pairs, []) = word.as_chunks::<2>() else {
        return Err(Complaint::NotHex);
    };
    for &[high, low] in pairs {
        let next = byte(high, low).ok_or(Complaint::NotHex)?;
        out.push(next)?;
    }
    Ok(())
}
