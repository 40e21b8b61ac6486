// A boolean expression as a text of its own.
#![tactic(auto)]

mod read;
#[cfg(test)]
mod tests;

pub use read::{ConditionText, read_condition};
