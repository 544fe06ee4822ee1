// An ordered table over a lent slice: its entries are the first `count` of the slice, in ascending order of their keys.
// Slice and count are two parameters, and no struct around them: a table's owner is one struct for C, whose fields are a plain
// array and a count, and a C function takes no struct with type parameters. `find`, `get` and `first` take the count too, and no
// slice that the caller cut, since a count above the length means the whole slice.
#![tactic(auto)]

mod key;

ghost use Rattle.std.specs.Prelude.{◌≡◌, ◌+◌, ◌-◌, ◌<◌, ◌≤◌, min, length, take, drop, is_ok, IfOk, if◌then◌else◌, MatchResult, slice_index_or};
ghost use Rattle.std.specs.Option.{option_map};
ghost use Rattle.table.specs.Answers.{inserts, removes};
ghost use Rattle.table.specs.Laws.{Ascends, FoundExactly, Laws, Tells, look};
ghost use Rattle.table.specs.Table.{found, lowest, put, without};

pub use key::{Entry, Exact, Ordered};
use std::cmp::Ordering;

// Why a table stays as it was.
#[derive(Clone, Copy, PartialEq, Eq, Debug)]
pub enum Refusal {
    // the count is above the slice's length
    Overrun,
    // the table takes up the whole slice
    Full,
    // an entry with this key is there
    Present,
    // no entry with this key is there
    Absent,
}

// The place of `key` among all entries of the slice. A chain, `position(|entry| entry.key() >= key)` and whether the key there
// is equal, would compare that key twice. Nor is it `binary_search_by`: the answer, `found`, holds of slices that do not ascend
// too, and there a binary search answers otherwise.
fn scan<E: Entry>(entries: &[E], key: &E::Key) -> Result<usize, usize>
    ensures within { MatchResult result (λ i. i < length entries.now) (λ i. i ≤ length entries.now) }
    ensures answer { result ≡ found E.Key.Ordered.order E.named key.now entries.now }
    ensures entry { Tells E.Key.Ordered.order E.named key.now entries.now result }
{
    for (i, entry) in entries.iter().enumerate() {
        match entry.key().compare(key) {
            Ordering::Less => {}
            Ordering::Equal => return Ok(i),
            Ordering::Greater => return Err(i),
        }
    }
    Err(entries.len())
}

// The entries of the table.
fn held<E>(entries: &[E], count: usize) -> &[E]
    ensures value { result.now ≡ take count entries.now }
    ensures len { length result.now ≡ min count (length entries.now) }
{
    &entries[..count.min(entries.len())]
}

// The place of `key` in the table, or the place where it would go. A count above the length means the whole slice.
pub fn find<E: Entry>(entries: &[E], count: usize, key: &E::Key) -> Result<usize, usize>
    ensures within { MatchResult result (λ i. (i < count) × (i < length entries.now)) (λ i. (i ≤ count) × (i ≤ length entries.now)) }
    ensures answer { result ≡ found E.Key.Ordered.order E.named key.now (take count entries.now) }
    ensures entry { Tells E.Key.Ordered.order E.named key.now (take count entries.now) result }
{
    scan(held(entries, count), key)
}

// The entry of `key`.
pub fn get<'a, E: Entry>(entries: &'a [E], count: usize, key: &E::Key) -> Option<&'a E>
    ensures { option_map (λ x. x.now) result ≡ look E.Key.Ordered.order E.named key.now (take count entries.now) }
{
    let table = held(entries, count);
    scan(table, key).ok().map(|place| &table[place])
}

// The entry with the lowest key.
pub fn first<E: Entry>(entries: &[E], count: usize) -> Option<&E>
    ensures { option_map (λ x. x.now) result ≡ lowest (take count entries.now) }
{
    held(entries, count).first()
}

// Puts `entry` in its place, and gives that place: the table then has one entry more.
pub fn insert<E: Entry + Drop>(entries: &mut [E], count: usize, entry: E) -> Result<usize, Refusal>
    ensures answer { result ≡ inserts count (length entries.old) (found E.Key.Ordered.order E.named (E.named entry) (take count entries.old)) }
    ensures within { IfOk result (λ i. (i ≤ count) × (count < length entries.old)) }
    ensures table { MatchResult result (λ _. take (count + 1) entries.new ≡ put E.Key.Ordered.order E.named entry (take count entries.old)) (λ _. entries.new ≡ entries.old) }
    ensures ascends { Ascends E.Key.Ordered.order E.named (take count entries.old) → Ascends E.Key.Ordered.order E.named (take (if is_ok result then count + 1 else count) entries.new) }
    ensures behind { drop (count + 1) entries.new ≡ drop (count + 1) entries.old }
{
    if count > entries.len() {
        return Err(Refusal::Overrun);
    }
    match find(entries, count, entry.key()) {
        Ok(_) => Err(Refusal::Present),
        Err(_) if count == entries.len() => Err(Refusal::Full),
        Err(place) => {
            entries[count] = entry;
            entries[place..count + 1].rotate_right(1);
            Ok(place)
        }
    }
}

// Takes the entry with `key` out, and gives the place that it had: the table then has one entry fewer, and that entry stands right behind it.
pub fn remove<E: Entry>(entries: &mut [E], count: usize, key: &E::Key) -> Result<usize, Refusal>
    ensures answer { result ≡ removes count (length entries.old) (found E.Key.Ordered.order E.named key.now (take count entries.old)) }
    ensures within { IfOk result (λ i. (i < count) × (count ≤ length entries.old)) }
    ensures table { MatchResult result (λ _. take (count - 1) entries.new ≡ without E.Key.Ordered.order E.named key.now (take count entries.old)) (λ _. entries.new ≡ entries.old) }
    ensures ascends { Ascends E.Key.Ordered.order E.named (take count entries.old) → Ascends E.Key.Ordered.order E.named (take (if is_ok result then count - 1 else count) entries.new) }
    ensures last { IfOk result (λ i. (d : E) → slice_index_or entries.new (count - 1) d ≡ slice_index_or entries.old i d) }
    ensures behind { drop count entries.new ≡ drop count entries.old }
{
    if count > entries.len() {
        return Err(Refusal::Overrun);
    }
    let place = find(entries, count, key).map_err(|_| Refusal::Absent)?;
    entries[place..count].rotate_left(1);
    Ok(place)
}

// What holds of every table, whatever its entries.
pub fn laws_stand<E: Entry>()
    ensures { Laws E.Key.Ordered.order E.named }
{}

// Where equal is the same key, what is found has the key that was asked for.
pub fn keys_stand<E: Entry>()
where
    E::Key: Exact,
    ensures { FoundExactly E.Key.Ordered.order E.named }
{}

#[cfg(test)]
mod tests;
