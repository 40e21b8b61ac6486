// Where a statement stands: what may stand in it, how many more may be opened, and what it is a part of.
use text::Limits;

#[derive(Clone, Copy)]
pub struct Site {
    pub limits: Limits,
    // Whether some `while` is open.
    pub inside: bool,
    // The label of the `if` or `while` that the statement is a part of.
    pub owner: Option<usize>,
}
