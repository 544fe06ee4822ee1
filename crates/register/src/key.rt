// A member's key: 32 bytes, compared as unsigned bytes from the first.
ghost use Rattle.std.specs.Prelude.{◌≡◌};
ghost use Rattle.std.specs.Result.{result_ok};
ghost use Rattle.register.specs.Keys.{bytes_in, key_of};
ghost use Rattle.register.specs.Order.{order};

use std::cmp::Ordering;

#[derive(Clone, Copy, PartialEq, Eq, PartialOrd, Ord, Debug, Default)]
pub struct Key {
    bytes: [u8; 32],
}

// Bytes that are no key, since they are not 32.
#[derive(Clone, Copy, PartialEq, Eq, Debug)]
pub struct WrongLength;

impl TryFrom<&[u8]> for Key {
    type Error = WrongLength;

    ghost try_from_gives = { λ bytes result. bytes_in (result_ok result) ≡ key_of bytes.now };

    fn try_from(bytes: &[u8]) -> Result<Key, WrongLength> {
        let bytes = <[u8; 32]>::try_from(bytes).map_err(|_| WrongLength)?;
        Ok(Key { bytes })
    }
}

impl Key {
    pub fn as_bytes(&self) -> &[u8]
        ensures { result.now ≡ self.now.bytes }
    {
        &self.bytes
    }

    // The derived order is that of the bytes. Kept as a promise: it says which order the derived one is.
    #[tactic(auto, using(crate::specs::ByteOrder::slice_order))]
    pub fn compare(&self, other: &Key) -> Ordering
        ensures { result ≡ order self.now.bytes other.now.bytes }
    {
        self.cmp(other)
    }
}
