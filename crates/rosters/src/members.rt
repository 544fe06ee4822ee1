// The members of an epoch: at most 64 keys, each above the one before it, and the node's own place among them, if any.
ghost use Rattle.std.specs.Prelude.{◌≡◌, T, length, take};
ghost use Rattle.rosters.specs.Sound.{Few, all_bytes, ascending, index, sound};

use crate::fault::Fault;
use register::key::Key;

// The keys are an array and a count, since there is no heap; nor is a list type of N shared with the table of epochs, since a
// `Copy` struct has a model only where that gives its fields back.
#[derive(Clone, Copy)]
pub struct Members {
    keys: [Key; 64],
    count: usize,
    own: Option<u16>,
    ghost ok: { T (sound keys count own) },
}

// Whether each key is above the one before it.
fn ascends(keys: &[Key]) -> bool
    ensures { result ≡ ascending (all_bytes keys.now) }
{
    keys.is_sorted_by(|a, b| a < b)
}

// The place of `key` among the keys.
pub(crate) fn place(keys: &[Key], key: &Key) -> Option<u16>
    requires { Few keys.now }
    ensures { result ≡ index key.now.bytes (all_bytes keys.now) }
{
    keys.iter()
        .position(|member| member == key)
        .map(|place| place as u16)
}

// The keys in 64 slots; those behind them are zero and not read.
fn slots(keys: &[Key]) -> [Key; 64]
    requires { Few keys.now }
    ensures { take (length keys.now) result ≡ keys.now }
{
    let mut slots = [Key::default(); 64];
    slots[..keys.len()].copy_from_slice(keys);
    slots
}

impl Members {
    ghost use Rattle.rosters.specs.Enrolled.{enrolled, seated, told};

    // The node's own place, where it has a key.
    fn seat(keys: &[Key], own: Option<Key>) -> Result<Option<u16>, Fault>
        requires { Few keys.now }
        ensures { result ≡ seated own keys.now }
    {
        let Some(key) = own else {
            return Ok(None);
        };
        let index = place(keys, &key).ok_or(Fault::OwnNotMember)?;
        Ok(Some(index))
    }

    // Refuses more than 64 keys, keys that do not ascend, and an own key that is none of them, in this order.
    pub fn new(keys: &[Key], own: Option<Key>) -> Result<Members, Fault>
        ensures { told result ≡ enrolled own keys.now }
    {
        if keys.len() > 64 {
            return Err(Fault::TooManyKeys);
        }
        if !ascends(keys) {
            return Err(Fault::NotAscending);
        }
        let own = Self::seat(keys, own)?;
        Ok(Members {
            keys: slots(keys),
            count: keys.len(),
            own,
        })
    }

    pub fn keys(&self) -> &[Key]
        ensures { result.now ≡ take self.now.count self.now.keys }
    {
        &self.keys[..self.count]
    }

    pub fn own(&self) -> Option<u16>
        ensures { result ≡ self.now.own }
    {
        self.own
    }
}
