// The state of a check. The table that it stores in stays the caller's.
use crate::phase::Phase;

// Each method says that `places` stays: with the other two in a struct of their own, each clause would name that too.
#[derive(Debug, Drop, PartialEq, Eq)]
pub struct Check {
    pub(crate) places: usize,
    pub(crate) stored: u32,
    pub(crate) phase: Phase,
}
