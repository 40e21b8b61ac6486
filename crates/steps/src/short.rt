// A list of row numbers with room for so many, in place: nothing is allocated.
ghost use Rattle.std.specs.Prelude.{◌≡◌, ◌<◌, ◌≤◌, [], ◌∷◌, ◌++◌, length, MatchResult};

use std::marker::Model;

// There is no room for one item more.
#[derive(Drop)]
pub(crate) struct Full;

// Not the kit's `arrayvec`: no crate but lastcheck stands on one of the kit's, so that what is trusted stays small.
// Not one type with job's `Line`, its only like: the two crates share none but model, which holds no lists.
#[derive(Drop)]
pub(crate) struct Short<const N: usize> {
    items: [u8; N],
    // In 16 bits, as there is one beside each row's few items.
    length: u16,
}

impl<const N: usize> Model for Short<N> {
    ghost use Rattle.std.specs.Prelude.{ℕ, ◌≤◌, List, take};

    ghost Value = { List ℕ };

    ghost view = { λ s. take s.length s.items };

    ghost invariant = { λ s. (s.length ≤ N) × (N ≤ 256) };
}

impl<const N: usize> Short<N> {
    pub(crate) fn new() -> Short<N>
        requires { N ≤ 256 }
        ensures { result ≡ [] }
    {
        Short {
            items: [0; N],
            length: 0,
        }
    }

    pub(crate) fn as_slice(&self) -> &[u8]
        ensures { result.now ≡ self.now }
    {
        &self.items[..usize::from(self.length)]
    }

    // Puts an item at the end, where there is room.
    pub(crate) fn push(&mut self, item: u8) -> Result<(), Full>
        ensures { MatchResult result (λ _. (length self.old < N) × (self.new ≡ self.old ++ item ∷ [])) (λ _. (self.new ≡ self.old) × (N ≤ length self.old)) }
    {
        let place = usize::from(self.length);
        if place >= N {
            return Err(Full);
        }
        self.items[place] = item;
        self.length += 1;
        Ok(())
    }
}
