// The survey: which labels some run of a cell comes to, with the codes that runs come to in the caller's table.
#![tactic(auto)]

mod call;
mod mark;
#[cfg(test)]
mod tests;
mod walk;

pub use call::{Reached, survey};
