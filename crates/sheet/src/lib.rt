// Order sheets: regular expressions over assertions, read from a text, as a watch.
#![tactic(auto)]

mod automaton;
mod descent;
mod draft;
mod finish;
mod growth;
mod reading;
mod reserve;
mod room;
mod sheet;
#[cfg(test)]
mod tests;
mod tree;
mod watch;

pub use reading::read;
pub use room::Room;
pub use sheet::Sheet;
