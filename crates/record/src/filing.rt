// Putting an entry into an ordered table that has room.
ghost use Rattle.std.specs.Prelude.{◌≡◌, ◌+◌, ◌<◌, ◌≤◌, length, take, drop};
ghost use Rattle.table.specs.Table.{put};

use table::Entry;

// Puts the entry in, unless its key is there, and counts the entries.
pub fn file<E: Entry + Drop>(entries: &mut [E], count: usize, entry: E) -> usize
    requires { count < length entries.old }
    ensures table { take result entries.new ≡ put E.Key.Ordered.order E.named entry (take count entries.old) }
    ensures behind { drop (count + 1) entries.new ≡ drop (count + 1) entries.old }
    ensures count { (count ≤ result) × (result ≤ count + 1) }
{
    // `count + usize::from(table::insert(entries, count, entry).is_ok())` is no plainer.
    match table::insert(entries, count, entry) {
        Ok(_) => count + 1,
        Err(_) => count,
    }
}
