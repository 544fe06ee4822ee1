// What was received at an index.
ghost use Rattle.std.specs.Prelude.{◌≡◌, ℕ, List};
ghost use Rattle.intake.specs.Classes.{bytes_of};
ghost use Rattle.model.specs.Intake.{received_at};
ghost use Rattle.record.specs.Joins.{Housed};
ghost use Rattle.record.specs.Views.{memory, shards_of};
ghost use Rattle.std.specs.Option.{option_map};

use record::record::Record;
use record::slot::Slot;
use register::ordered::Index;

// The bytes that were received at the index, where they lie.
pub fn received<'m>(rec: &Record, shards: &'m [u8], slot: Slot, index: u16) -> Option<&'m [u8]>
    requires { Housed slot rec.now shards.now }
    ensures { (size : ℕ) (blobs : List ℕ) → option_map (λ x. x.now) result ≡ option_map bytes_of (received_at index (shards_of (memory slot.width shards.now size blobs) slot.number rec.now)) }
{
    let stored = rec.received_at(Index(index))?;
    let place = slot.place(stored.index);
    Some(places::load(shards, slot.width, place, stored.len as usize))
}
