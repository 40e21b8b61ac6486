// Counting a sign, and adding nodes and assertions to a draft.
ghost use Rattle.std.specs.Prelude.{◌+◌, ◌*◌, ◌<◌, vec_len, MatchResult};
ghost use Rattle.sheet.specs.Drafts.{Signed, Pushed, Asserted};
ghost use Rattle.sheet.specs.Owed.{TooMany, NoRoom};

use crate::draft::Draft;
use crate::tree::{Leaf, Node};
use model::Cause;
use text::{Fault, Word};

// The most assertions of a sheet.
pub(crate) const MOST_ASSERTIONS: usize = 60;

// The most words `empty`, `*`, `+` and `|` of a sheet.
const MOST_SIGNS: usize = 256;

impl Draft {
    // Counts one more sign, unless it would be the 257th.
    pub(crate) fn count_sign(&mut self, word: Word) -> Result<(), Fault>
        ensures { MatchResult result (λ _. Signed self.old self.new) (TooMany self.old word.place) }
    {
        if self.signs >= MOST_SIGNS {
            return Err(word.fault(Cause::Many));
        }
        self.signs += 1;
        Ok(())
    }

    // Whether one more assertion, which begins at this word, would not be the 61st. What adds it asks for that in its contract, as the
    // count is the draft's own: a type for the room would stay when the next assertion has taken it.
    pub(crate) fn room_for_assertion(&self, word: Word) -> Result<(), Fault>
        ensures { MatchResult result (λ _. vec_len self.now.leaves < 60) (NoRoom self.now word.place) }
    {
        if self.leaves.len() >= MOST_ASSERTIONS {
            return Err(word.fault(Cause::Many));
        }
        Ok(())
    }

    // Adds a node; its index is told. Not text's push: shared it would be public, and a public function asks nothing of its callers.
    pub(crate) fn push(&mut self, node: Node) -> usize
        requires { vec_len self.old.nodes < 2 * (vec_len self.old.leaves + self.old.signs) }
        ensures { Pushed self.old self.new node result }
    {
        let index = self.nodes.len();
        self.nodes.push_reserved(node);
        index
    }

    // Adds an assertion, and its node; the node's index is told.
    pub(crate) fn assert(&mut self, leaf: Leaf) -> usize
        requires { vec_len self.old.leaves < 60 }
        ensures { Asserted self.old self.new leaf result }
    {
        let place = self.leaves.len();
        self.leaves.push_reserved(leaf);
        self.push(Node::One(place))
    }
}
