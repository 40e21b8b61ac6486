// Looking a key up in the chain of its bucket.
ghost use Rattle.store.specs.Calls.{FoundSo};

use crate::chain::Chains;
use crate::record::Record;
use model::Key;

// The place of a key among the first records, where their index is in order.
// Table and number stay two parameters, as in `add`: the row is its caller's, and others may write it between calls.
pub fn find<K: Key>(table: &[Record<K>], stored: usize, key: &K) -> Option<usize>
    ensures { FoundSo K.Key.kind table.now stored key.now result }
{
    if stored == 0 {
        return None;
    }
    if table.len() < stored {
        return None;
    }
    let chains = Chains::of(stored);
    let mut link = table[chains.bucket(key)].head as usize;
    if stored < link {
        return None;
    }
    while let Some(place) = link.checked_sub(1) {
        let here = &table[place];
        if here.key.same(key) {
            return Some(place);
        }
        let next = here.next as usize;
        // Only a foreign write can make a chain rise; the look-up ends there all the same.
        if next >= link {
            return None;
        }
        link = next;
    }
    None
}
