// Cycle programs: reading a text into a cell whose runs are the program's prefix traces.
#![tactic(auto)]

mod assembly;
mod board;
mod boards;
mod bounds;
mod declarations;
mod declaring;
mod draft;
mod exits;
mod header;
mod heading;
mod leaves;
mod link;
mod opening;
mod phrases;
mod reading;
mod reserve;
mod room;
mod signs;
mod site;
mod start;
#[cfg(test)]
mod tests;
mod whole;

pub use reading::read;
pub use room::Room;
