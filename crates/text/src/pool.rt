// Reserving the room for expressions, counting their words, and adding their nodes.
ghost use Rattle.std.specs.Prelude.{◌≡◌, ◌+◌, ◌<◌, ◌≤◌, [], ◌∷◌, ◌++◌, length, IfOk, MatchResult, vec_len, vec_capacity};
ghost use Rattle.text.specs.Outcomes.{TooMany};
ghost use Rattle.text.specs.Pools.{Counted, ArithPushed, TestPushed};

use crate::expressions::Expressions;
use crate::node::{ArithNode, TestNode};
use crate::reading::Fault;
use crate::word::Word;
use model::Cause;
use std::alloc::{AllocError, Global};

// The most words of arithmetic and boolean expressions in one text.
pub const MOST_WORDS: usize = 256;

impl Expressions {
    // Room for the expressions of one text.
    pub fn reserve(heap: Global) -> Result<Expressions, AllocError>
        ensures { IfOk result (λ x. (x.ariths.items ≡ []) × (x.tests.items ≡ []) × (x.counted ≡ 0)) }
    {
        let ariths = Vec::with_capacity(heap, MOST_WORDS)?;
        let tests = Vec::with_capacity(heap, MOST_WORDS)?;
        Ok(Expressions {
            ariths,
            tests,
            counted: 0,
        })
    }

    // The arithmetic nodes: never more than words are counted.
    // Those who evaluate them ask that there are few; a struct round the slice would say no more, and be taken apart there.
    pub fn ariths(&self) -> &[ArithNode]
        ensures nodes { result.now ≡ self.now.ariths.items }
        ensures few { length result.now ≤ 256 }
    {
        self.ariths.as_slice()
    }

    // The nodes of tests.
    pub fn tests(&self) -> &[TestNode]
        ensures { result.now ≡ self.now.tests.items }
    {
        self.tests.as_slice()
    }

    // Counts one more word, unless it would be the 257th.
    pub(crate) fn count(&mut self, word: Word) -> Result<(), Fault>
        ensures { MatchResult result (λ _. Counted self.old self.new) (λ f. (self.new ≡ self.old) × TooMany self.old word.place f) }
    {
        if self.counted >= MOST_WORDS {
            return Err(word.fault(Cause::Many));
        }
        self.counted += 1;
        Ok(())
    }

    // The node of a word that has been counted; its place is told.
    pub(crate) fn push_arith(&mut self, node: ArithNode) -> usize
        requires { vec_len self.old.ariths + vec_len self.old.tests < self.old.counted }
        ensures { ArithPushed self.old self.new node result }
    {
        push(&mut self.ariths, node)
    }

    // The node of a word that has been counted; its place is told.
    pub(crate) fn push_test(&mut self, node: TestNode) -> usize
        requires { vec_len self.old.ariths + vec_len self.old.tests < self.old.counted }
        ensures { TestPushed self.old self.new node result }
    {
        push(&mut self.tests, node)
    }
}

// Puts a node at the end of nodes whose room is reserved; its place is told.
pub(crate) fn push<N>(nodes: &mut Vec<N>, node: N) -> usize
    requires { vec_len nodes.old < vec_capacity nodes.old }
    ensures place { result ≡ vec_len nodes.old }
    ensures items { nodes.new.items ≡ nodes.old.items ++ node ∷ [] }
    ensures len { vec_len nodes.new ≡ vec_len nodes.old + 1 }
    ensures capacity { vec_capacity nodes.new ≡ vec_capacity nodes.old }
{
    let place = nodes.len();
    nodes.push_reserved(node);
    place
}
