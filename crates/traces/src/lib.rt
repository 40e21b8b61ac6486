// What a cycle program means: its tree, its labels, its prefix traces, and the codes of its states.
#![tactic(auto)]

mod making;
mod range;
mod theorem;

pub use range::Range;
pub use theorem::traces_are_paths;
