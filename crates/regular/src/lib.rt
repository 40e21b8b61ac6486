// Regular expressions over assertions: their words, and the position automaton that follows them.
#![tactic(auto)]

mod law;
mod positions;
mod sets;
mod state;

pub use law::automaton_follows_words;
pub use positions::Positions;
pub use sets::{has, with};
