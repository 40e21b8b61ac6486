// A sheet while its text is read.
ghost use Rattle.std.specs.Prelude.{◌+◌, ◌*◌, ◌≤◌, vec_len, vec_capacity};

use crate::tree::{Leaf, Node};
use text::Expressions;

// Its nodes, leaves and tests are no struct of their own, though a sheet has them too: they are handed over once, when it is
// finished, and every other use would name that struct on its way to them.
#[derive(Drop)]
pub struct Draft {
    pub(crate) nodes: Vec<Node>,
    pub(crate) leaves: Vec<Leaf>,
    pub(crate) tests: Expressions,
    // The words `empty`, `*`, `+` and `|` so far.
    pub(crate) signs: usize,
    ghost node_room: { 632 ≤ vec_capacity nodes },
    ghost leaf_room: { 60 ≤ vec_capacity leaves },
    ghost few: { (vec_len leaves ≤ 60) × (signs ≤ 256) },
    ghost fit: { vec_len nodes ≤ 2 * (vec_len leaves + signs) },
}
