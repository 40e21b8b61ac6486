// The set of keys in the caller's row of records, with an index threaded through the records themselves.
#![tactic(auto)]

mod adding;
mod chain;
mod lookup;
mod record;
#[cfg(test)]
mod tests;

pub use adding::{Added, NoPlace, add, keep};
pub use lookup::find;
pub use record::{MOST_PLACES, Record};
