// Step tables: cells that come as plain rows and arcs.
#![tactic(auto)]

mod cell;
mod counted;
mod fill;
mod row;
mod short;
mod table;
#[cfg(test)]
mod tests;

pub use row::{Arc, Row};
pub use table::StepTable;
