// A sheet as it lies in memory: its tree, its assertions, and the position automaton of the tree.
ghost use Rattle.std.specs.Prelude.{◌≡◌, ◌≤◌, vec_len};
ghost use Rattle.sheet.specs.Parts.{Standing};

use crate::tree::{Leaf, Node};
use text::Expressions;

#[derive(Drop)]
pub struct Sheet {
    // The tree: its root is the last node.
    pub(crate) nodes: Vec<Node>,
    // The assertions, by their places in the text.
    pub(crate) leaves: Vec<Leaf>,
    // The tests of the assertions.
    pub(crate) tests: Expressions,
    // The places that a word can begin with.
    pub(crate) first: u64,
    // For each place the set of those that can follow it in a word.
    // Not beside the leaves: they are read before the sets can be computed, and a set that is not yet true would stand there.
    pub(crate) follow: Vec<u64>,
    ghost small: { (vec_len leaves ≤ 60) × (vec_len follow ≡ vec_len leaves) },
    ghost stands: { ∥ Standing nodes.items leaves.items tests.ariths.items tests.tests.items first follow.items ∥₁ },
}
