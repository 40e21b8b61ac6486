// One place of the caller's table: a key, the place that it was reached from, and two fields of the index.
ghost use Rattle.std.specs.Prelude.{◌≡◌};
ghost use Rattle.store.specs.Entries.{entry};

use model::Key;

// A table that a check or a survey is given has no more places than this.
pub const MOST_PLACES: usize = 1_000_000;

// A link is a number, with 0 for none: an Option would make every record of the caller's table eight bytes longer.
#[derive(Clone, Copy)]
pub struct Record<K> {
    pub key: K,
    pub from: u32,
    // One more than the greatest stored place of the bucket with this record's number, 0 where the bucket is empty.
    pub(crate) head: u32,
    // One more than the greatest place below this one in its own bucket, 0 where there is none.
    pub(crate) next: u32,
}

impl<K: Key> Record<K> {
    // A record to make a table of. What a place holds before a key is stored there is never looked at.
    pub fn new(key: K) -> Record<K>
        ensures { entry result ≡ record { key = key; from = 0 } }
    {
        Record {
            key,
            from: 0,
            head: 0,
            next: 0,
        }
    }
}
