// The hashes on byte slices, as C calls them: thin, and nothing else. `exports_c` gives them to C under these names.
#![tactic(auto)]

ghost use Rattle.std.specs.Prelude.{◌≡◌, ◌==◌, ◌++◌, length, if◌then◌else◌};
ghost use Rattle.sha256.specs.Fips180.{sha256};
ghost use Rattle.sha3.specs.Fips202.{sha3_256};

use hash::Hash;
use sha3::Sha3;
use sha256::Sha256;

// The digest of `first` followed by `second`, where `out` has 32 bytes; else false, and `out` stands as before.
// C passes slices and reads a bool: it knows no Option. The two clauses stand in full at each function, and not in specs/:
// whoever calls the function from C reads them there.
fn digest_into<H: Hash>(hash: &H, first: &[u8], second: &[u8], out: &mut [u8]) -> bool
    ensures fits { result ≡ (length out.old == 32) }
    ensures after { out.new ≡ (if result then H.digest hash.now (first.now ++ second.now) else out.old) }
{
    if out.len() != 32 {
        return false;
    }
    out.copy_from_slice(&hash.hash_parts(first, second));
    true
}

// The SHA-256 digest of `first` followed by `second`, where `out` has 32 bytes; else false, and `out` stands as before.
#[unsafe(no_mangle)]
pub extern "C" fn covasluk_sha256(first: &[u8], second: &[u8], out: &mut [u8]) -> bool
    ensures fits { result ≡ (length out.old == 32) }
    ensures after { out.new ≡ (if result then sha256 (first.now ++ second.now) else out.old) }
{
    digest_into(&Sha256, first, second, out)
}

// The SHA3-256 digest of `first` followed by `second`, where `out` has 32 bytes; else false, and `out` stands as before.
#[unsafe(no_mangle)]
pub extern "C" fn covasluk_sha3_256(first: &[u8], second: &[u8], out: &mut [u8]) -> bool
    ensures fits { result ≡ (length out.old == 32) }
    ensures after { out.new ≡ (if result then sha3_256 (first.now ++ second.now) else out.old) }
{
    digest_into(&Sha3, first, second, out)
}
