// The states of a sheet's watch.

// Before the first moment, or the set of assertions that the last moment can have been: place i is bit i.
// Not an Option of the set: a step's None already says that no permitted list begins so.
#[derive(Clone, Copy, Debug, PartialEq, Eq)]
pub enum Positions {
    Start,
    After(u64),
}
