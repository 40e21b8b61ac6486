// What a watch sees of one state of a run, and what a cell tells of one code.

// One state of a run as a watch sees it: the statement's label, the six registers now, and the six at the
// start of the run.
#[derive(Clone, Copy, Debug, PartialEq, Eq)]
pub struct Moment {
    pub label: u8,
    pub values: [i16; 6],
    pub starts: [i16; 6],
}

// The caller's record for a state's label and values.
#[derive(Clone, Copy, Debug, PartialEq, Eq)]
pub struct Reading {
    pub label: u8,
    pub values: [i16; 6],
}
