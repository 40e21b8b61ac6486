// Expressions as nodes in vectors: an operator names its operands by their places, which come before its own.
// Reading may not allocate, so nodes lie in vectors that are reserved before, and not in boxes.
use crate::word::Register;

// A node of an arithmetic expression.
#[derive(Clone, Copy, Debug, PartialEq, Eq)]
pub enum ArithNode {
    Number(u16),
    // The register's value now.
    Current(Register),
    // The register's value at the start of the run.
    Initial(Register),
    Plus(usize, usize),
    Minus(usize, usize),
}

// A node of a boolean expression: comparisons name arithmetic nodes, the other operators name tests.
#[derive(Clone, Copy, Debug, PartialEq, Eq)]
pub enum TestNode {
    Always,
    Less(usize, usize),
    AtMost(usize, usize),
    Equal(usize, usize),
    Both(usize, usize),
    Either(usize, usize),
    NotBoth(usize, usize),
}
