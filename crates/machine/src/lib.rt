// Cycle programs as cells.
#![tactic(auto)]

mod cell;
mod codes;
mod perform;
mod program;
mod statement;

pub use program::Program;
pub use statement::Statement;
