// What expressions say of a moment.
#![tactic(auto)]

mod evaluate;

pub use evaluate::{holds, value};
