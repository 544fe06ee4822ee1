// The functions of `exports`, in a static library under the same names: thin, and nothing else. They stand twice, since a
// crate is a library or a static library, and C calls each hash by a name of its own.
#![tactic(auto)]

ghost use Rattle.std.specs.Prelude.{◌≡◌, ◌==◌, ◌++◌, length, if◌then◌else◌};
ghost use Rattle.sha256.specs.Fips180.{sha256};
ghost use Rattle.sha3.specs.Fips202.{sha3_256};

// The SHA-256 digest of `first` followed by `second`, where `out` has 32 bytes; else false, and `out` stands as before.
#[unsafe(no_mangle)]
pub extern "C" fn covasluk_sha256(first: &[u8], second: &[u8], out: &mut [u8]) -> bool
    ensures fits { result ≡ (length out.old == 32) }
    ensures after { out.new ≡ (if result then sha256 (first.now ++ second.now) else out.old) }
{
    exports::covasluk_sha256(first, second, out)
}

// The SHA3-256 digest of `first` followed by `second`, where `out` has 32 bytes; else false, and `out` stands as before.
#[unsafe(no_mangle)]
pub extern "C" fn covasluk_sha3_256(first: &[u8], second: &[u8], out: &mut [u8]) -> bool
    ensures fits { result ≡ (length out.old == 32) }
    ensures after { out.new ≡ (if result then sha3_256 (first.now ++ second.now) else out.old) }
{
    exports::covasluk_sha3_256(first, second, out)
}
