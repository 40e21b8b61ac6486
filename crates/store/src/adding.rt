// Adding a key behind the stored ones, unless it is there already.
ghost use Rattle.std.specs.Prelude.{◌≡◌, ◌<◌, length};
ghost use Rattle.store.specs.Calls.{AddedSo};
ghost use Rattle.store.specs.Keeping.{KeptSo};
ghost use Rattle.store.specs.Steps.{amend};

use crate::chain::enter;
use crate::lookup::find;
use crate::record::Record;
use model::Key;

// What became of a key: it was stored already, at this place; or it is stored now, behind the others.
// An Option would be no plainer: it would say None of the very key that is stored now.
#[derive(Clone, Copy, Debug, PartialEq, Eq)]
pub enum Added {
    Known(usize),
    New,
}

// A new key finds no place left in the table.
#[derive(Clone, Copy, Debug, PartialEq, Eq)]
pub struct NoPlace;

// A link is one more than a place in 32 bits, so this many places can be linked.
const PLACES: usize = 4_294_967_295;

// Adds a key, reached from a place, to the first records.
// Table and number stay two parameters: the row is its caller's between calls, and others may write it then.
pub fn add<K: Key>(
    table: &mut [Record<K>],
    stored: usize,
    key: K,
    from: u32,
) -> Result<Added, NoPlace>
    ensures { AddedSo K.Key.kind table.old table.new stored key from result }
{
    if let Some(place) = find(table, stored, &key) {
        return Ok(Added::Known(place));
    }
    if stored >= table.len() {
        return Err(NoPlace);
    }
    if stored >= PLACES {
        return Err(NoPlace);
    }
    put(table, stored, key, from);
    enter(table, stored);
    Ok(Added::New)
}

// Stores a key that is new, reached from a place. Answers how many are stored then.
pub fn keep<K: Key>(table: &mut [Record<K>], stored: u32, key: K, from: u32) -> Result<u32, NoPlace>
    ensures { KeptSo K.Key.kind table.old table.new stored key from result }
{
    match add(table, stored as usize, key, from)? {
        Added::Known(_) => Ok(stored),
        Added::New => Ok(stored.saturating_add(1)),
    }
}

// Writes a record that is in no chain yet.
fn put<K: Key>(table: &mut [Record<K>], place: usize, key: K, from: u32)
    requires { place < length table.old }
    ensures { table.new ≡ amend (λ _. record { key = key; from = from; head = 0; next = 0 }) table.old place }
{
    table[place] = Record {
        key,
        from,
        head: 0,
        next: 0,
    };
}
