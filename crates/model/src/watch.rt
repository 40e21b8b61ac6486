// A watch: a safety automaton over moments.
ghost use Rattle.std.specs.Prelude.{◌≡◌};
ghost use Rattle.model.specs.Watches.{WatchMeaning};

use crate::key::Key;
use crate::moment::Moment;

pub trait Watch {
    type State: Key;

    ghost watch: { Self → WatchMeaning Self.State };

    // The state before the first moment.
    fn first(&self) -> Self::State
        ensures { result ≡ (watch self.now).first };

    // The state after one more moment, or none where no permitted list goes on so.
    fn step(&self, state: &Self::State, moment: &Moment) -> Option<Self::State>
        ensures { result ≡ (watch self.now).step state.now moment.now };
}
