// A sheet's tree in a vector: nodes are named by their index, and a child stands before its parent.
// No boxes: reading may not allocate, so all nodes lie in a vector that is reserved before.

// One node of the tree.
#[derive(Clone, Copy, Debug, PartialEq, Eq)]
pub enum Node {
    // The empty sequence.
    Empty,
    // The assertion at this place.
    One(usize),
    Sequence(usize, usize),
    Alternative(usize, usize),
    Star(usize),
    Plus(usize),
}

// The labels of an assertion. Not an Option of the set: None would read as no label, and all is meant.
#[derive(Clone, Copy, Debug, PartialEq, Eq)]
pub enum Labels {
    All,
    // Label i is bit i.
    Among(u64),
}

// An assertion. Not an Option of what is given: None would read as no assertion, and `rest` adds one that always holds.
#[derive(Clone, Copy, Debug, PartialEq, Eq)]
pub enum Leaf {
    // Its labels, and the index of its test.
    Given(Labels, usize),
    // What `rest` repeats: it holds at every moment.
    Anything,
}

// What the position automaton has to know of a node: whether the empty list is one of its words, and the sets of places that
// a word can begin and end with. By default there are no words at all.
#[derive(Clone, Copy, Debug, Default, PartialEq, Eq)]
pub struct Summary {
    pub nullable: bool,
    pub first: u64,
    pub last: u64,
}
