// The calls of a check, and what they answer, as values.
use model::Answer;

// One of the five calls.
#[derive(Clone, Copy, Debug, PartialEq, Eq)]
pub enum Call {
    Open,
    Work(u64),
    Restart,
    Verdict,
    Shown(usize),
}

// A call, and how many places of the table it is made with.
#[derive(Clone, Copy, Debug, PartialEq, Eq)]
pub struct Asked {
    pub call: Call,
    pub places: usize,
}

// What a call answers that is not turned away.
#[derive(Clone, Copy, Debug, PartialEq, Eq)]
pub enum Reply {
    Told(Answer),
    Code(u64),
}
