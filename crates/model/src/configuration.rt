// What a check stores of a permitted run: where it began, where it is, and the watch's state there.
ghost use Rattle.model.specs.Keys.{configuration_key};

use crate::key::{Key, MULTIPLIER};

#[derive(Clone, Copy)]
pub struct Configuration<S> {
    pub first: u64,
    pub last: u64,
    pub state: S,
}

impl<S: Key> Key for Configuration<S> {
    ghost kind = { configuration_key S.Key.kind };

    fn same(&self, other: &Configuration<S>) -> bool {
        self.first == other.first && self.last == other.last && self.state.same(&other.state)
    }

    fn digest(&self) -> u64 {
        let spread = self.first.wrapping_mul(MULTIPLIER) ^ self.last;
        spread.wrapping_mul(MULTIPLIER) ^ self.state.digest()
    }
}
