// Hash chains through the records: the bucket of a key, and how a stored record gets into its chain.
ghost use Rattle.std.specs.Prelude.{◌≡◌, ℕ, ◌+◌, ◌^◌, ◌<◌, ◌≤◌, length};
ghost use Rattle.store.specs.Chains.{Buckets, bucket_of};
ghost use Rattle.store.specs.Steps.{cleared, linked, all_linked, entered};

use crate::record::Record;
use model::{Key, MULTIPLIER};

// The chains of a table, one for each bucket: the number of buckets is two to the power of the bits.
#[derive(Clone, Copy)]
pub(crate) struct Chains {
    bits: u32,
    ghost few: { bits < 64 },
}

impl Chains {
    // As many as there are for so many records: the largest power of two not above their number.
    pub(crate) fn of(stored: usize) -> Chains
        requires { 0 < stored }
        ensures { Buckets stored (2 ^ result.bits) }
    {
        Chains {
            bits: stored.ilog2(),
        }
    }

    // How many buckets there are.
    fn count(self) -> usize
        ensures { result ≡ 2 ^ self.bits }
    {
        1 << self.bits
    }

    // The bucket of a key. A digest may have all its meaning in a few bits, so it is folded and spread first.
    pub(crate) fn bucket<K: Key>(self, key: &K) -> usize
        ensures value { result ≡ bucket_of K.Key.kind (2 ^ self.bits) key.now }
        ensures below { result < 2 ^ self.bits }
    {
        let digest = key.digest();
        let spread = (digest ^ (digest >> 32)).wrapping_mul(MULTIPLIER);
        (spread >> 32) as usize & (self.count() - 1)
    }

    // Puts a record at the head of its chain, so that the places of a chain fall.
    // That the table has the place is asked here, in `enter` and in `put`: a struct of both would only lend them again.
    fn link<K: Key>(self, table: &mut [Record<K>], place: usize)
        requires buckets { 2 ^ self.bits ≤ length table.old }
        requires place { place < length table.old }
        requires small { place < 4294967295 }
        ensures { table.new ≡ linked K.Key.kind (2 ^ self.bits) table.old place }
    {
        let at = self.bucket(&table[place].key);
        table[place].next = table[at].head;
        table[at].head = place as u32 + 1;
    }

    // Links every one of the first records again, over as many buckets.
    fn relink<K: Key>(self, table: &mut [Record<K>])
        requires buckets { 2 ^ self.bits ≤ length table.old }
        requires small { 2 ^ self.bits ≤ 4294967295 }
        ensures { table.new ≡ all_linked K.Key.kind (2 ^ self.bits) (cleared table.old (2 ^ self.bits)) (2 ^ self.bits) }
    {
        let buckets = self.count();
        clear(&mut table[..buckets]);
        for place in 0..buckets {
            self.link(table, place);
        }
    }
}

// Empties the chains.
fn clear<K: Key>(heads: &mut [Record<K>])
    ensures { heads.new ≡ cleared heads.old (length heads.old) }
{
    for record in heads.iter_mut() {
        record.head = 0;
    }
}

// Puts the record behind the stored ones into the chains. Where it brings their number to twice the buckets, there are
// now as many buckets as records, and all are linked again.
pub(crate) fn enter<K: Key>(table: &mut [Record<K>], stored: usize)
    requires place { stored < length table.old }
    requires small { stored < 4294967295 }
    ensures { (m : ℕ) × Buckets (stored + 1) m × (table.new ≡ entered K.Key.kind m table.old stored) }
{
    let chains = Chains::of(stored + 1);
    if chains.count() < stored + 1 {
        chains.link(table, stored);
    } else {
        chains.relink(table);
    }
}
