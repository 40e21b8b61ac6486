// Reserving the memory for one sheet.
ghost use Rattle.std.specs.Prelude.{◌≡◌, [], IfOk};

use crate::draft::Draft;
use crate::growth::MOST_ASSERTIONS;
use crate::room::{AutomatonRoom, Room};
use lexing::Words;
use std::alloc::{AllocError, Global};
use text::Expressions;

// The most nodes of a tree: two for each assertion and each sign.
const MOST_NODES: usize = 632;

impl Draft {
    // An empty draft.
    fn reserve(heap: Global) -> Result<Draft, AllocError>
        ensures { IfOk result (λ x. (x.nodes.items ≡ []) × (x.leaves.items ≡ []) × (x.signs ≡ 0) × (x.tests.counted ≡ 0)) }
    {
        let nodes = Vec::with_capacity(heap, MOST_NODES)?;
        let leaves = Vec::with_capacity(heap, MOST_ASSERTIONS)?;
        let tests = Expressions::reserve(heap)?;
        Ok(Draft {
            nodes,
            leaves,
            tests,
            signs: 0,
        })
    }
}

impl AutomatonRoom {
    // Memory for the automaton of any draft.
    fn reserve(heap: Global) -> Result<AutomatonRoom, AllocError>
        ensures { IfOk result (λ x. (x.summaries.items ≡ []) × (x.follow.items ≡ [])) }
    {
        let summaries = Vec::with_capacity(heap, MOST_NODES)?;
        let follow = Vec::with_capacity(heap, MOST_ASSERTIONS)?;
        Ok(AutomatonRoom { summaries, follow })
    }
}

impl Room {
    // Room for one sheet of any size that may be read, or none for want of memory.
    pub fn reserve(heap: Global) -> Result<Room, AllocError>
        ensures { IfOk result (λ x. (x.words.list.items ≡ []) × (x.draft.nodes.items ≡ []) × (x.draft.leaves.items ≡ []) × (x.automaton.summaries.items ≡ []) × (x.automaton.follow.items ≡ [])) }
    {
        let words = Words::reserve(heap)?;
        let draft = Draft::reserve(heap)?;
        let automaton = AutomatonRoom::reserve(heap)?;
        Ok(Room {
            words,
            draft,
            automaton,
        })
    }
}
