// A check: every run of a cell against a watch, breadth first, in a table of the caller's.
#![tactic(auto)]

mod calls;
mod opening;
mod phase;
mod product;
mod replaying;
mod shown;
mod state;
#[cfg(test)]
mod tests;
mod unit;
mod verdict;
mod work;

pub use calls::{Asked, Call, Reply};
pub use replaying::replay;
pub use state::Check;
