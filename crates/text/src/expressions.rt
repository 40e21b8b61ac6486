// The expressions of one text: their nodes, in vectors that are reserved before the first word is read.
ghost use Rattle.std.specs.Prelude.{◌+◌, ◌≤◌, vec_len, vec_capacity};

use crate::node::{ArithNode, TestNode};

#[derive(Drop)]
pub struct Expressions {
    pub(crate) ariths: Vec<ArithNode>,
    pub(crate) tests: Vec<TestNode>,
    // The words counted so far: each has its node by the time that its expression has been read.
    pub(crate) counted: usize,
    ghost arith_room: { 256 ≤ vec_capacity ariths },
    ghost test_room: { 256 ≤ vec_capacity tests },
    ghost fit: { vec_len ariths + vec_len tests ≤ counted },
    ghost few: { counted ≤ 256 },
}
