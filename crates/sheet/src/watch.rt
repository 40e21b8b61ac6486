// A sheet is a watch: its states are sets of assertions.
ghost use Rattle.std.specs.Prelude.{◌≡◌};
ghost use Rattle.regular.specs.Words.{size, covers, asserts, holding};
ghost use Rattle.regular.specs.Sets.{gather, keep};
ghost use Rattle.regular.specs.Automaton.{follow_sets, nexts, state_of};
ghost use Rattle.regular.proofs.Meaning.{meaning};
ghost use Rattle.sheet.specs.Parts.{labels_of, assertion_of, Tested};
ghost use Rattle.sheet.specs.Sheets.{tree_of};

use crate::sheet::Sheet;
use crate::tree::{Labels, Leaf};
use model::{Moment, Watch};
use regular::{Positions, has, with};
use text::Expressions;
use values::holds;

impl Labels {
    // Whether the label is one of these.
    fn cover(self, label: u8) -> bool
        ensures { result ≡ covers (labels_of self) label }
    {
        match self {
            Labels::All => true,
            Labels::Among(set) => has(set, label as usize),
        }
    }
}

// Whether an assertion holds.
fn asserted(tests: &Expressions, leaf: Leaf, moment: &Moment) -> bool
    ensures { Tested tests.now.ariths.items tests.now.tests.items leaf → result ≡ asserts (assertion_of tests.now.ariths.items tests.now.tests.items leaf) moment.now }
{
    match leaf {
        Leaf::Given(labels, test) => labels.cover(moment.label) && holds(tests, test, moment),
        Leaf::Anything => true,
    }
}

impl Sheet {
    // The assertions that can follow one of the set.
    fn after(&self, set: u64) -> u64
        ensures { result ≡ gather (follow_sets (tree_of self.now)) set (size (tree_of self.now)) }
    {
        let mut all = 0;
        for (place, next) in self.follow.iter().enumerate() {
            if has(set, place) {
                all |= *next;
            }
        }
        all
    }

    // The assertions of the set that hold: what is not in the set is not evaluated.
    fn kept(&self, set: u64, moment: &Moment) -> u64
        ensures { result ≡ keep (λ p. holding (tree_of self.now) p moment.now) set (size (tree_of self.now)) }
    {
        let mut held = 0;
        for (place, leaf) in self.leaves.iter().enumerate() {
            if has(set, place) && asserted(&self.tests, *leaf, moment) {
                held = with(held, place);
            }
        }
        held
    }

    // The assertions that can come next.
    fn nexts(&self, state: Positions) -> u64
        ensures { result ≡ nexts (tree_of self.now) state }
    {
        match state {
            Positions::Start => self.first,
            Positions::After(set) => self.after(set),
        }
    }
}

// A set as a state: the empty one is none.
fn state_of(set: u64) -> Option<Positions>
    ensures { result ≡ state_of set }
{
    (set != 0).then_some(Positions::After(set))
}

impl Watch for Sheet {
    type State = Positions;

    ghost watch = { λ s. meaning (tree_of s) };

    fn first(&self) -> Positions {
        Positions::Start
    }

    fn step(&self, state: &Positions, moment: &Moment) -> Option<Positions> {
        state_of(self.kept(self.nexts(*state), moment))
    }
}
