// A job file's two texts, and the lines of a report.
#![tactic(auto)]

mod line;
mod parts;
mod report;

pub use line::ROOM as LINE;
pub use parts::{MOST, Texts, split};
pub use report::{refused_line, state_line, verdict_line};

#[cfg(test)]
mod tests;
