// A statement that has been read, before the labels that it goes on to are known.
use text::Register;

// What a statement is. Expressions are named by their places among the program's expressions.
#[derive(Clone, Copy)]
pub enum Kind {
    Set { register: Register, value: usize },
    Sense { register: Register },
    Skip,
    Break,
    // An `if`, and the label at which its part behind `else` begins.
    Choose { test: usize, middle: usize },
    // A `while`.
    Repeat { test: usize },
}

// A statement, the `if` or `while` that it is a part of, by its label, and the label behind its own labels.
#[derive(Clone, Copy)]
pub struct Draft {
    pub kind: Kind,
    pub owner: Option<usize>,
    pub end: usize,
}
