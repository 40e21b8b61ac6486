// Which words are a cycle program, and which tree they derive.
#![tactic(auto)]

mod theorem;

pub use theorem::same_texts;
