// What every crate shares: moments, refusals, keys, and the two interfaces of a check, cells and watches.
#![tactic(auto)]

mod answer;
mod cell;
mod configuration;
mod key;
mod moment;
mod refusal;
mod watch;

pub use answer::{Answer, Verdict};
pub use cell::{Cell, read, reading};
pub use configuration::Configuration;
pub use key::{Key, MULTIPLIER};
pub use moment::{Moment, Reading};
pub use refusal::{Cause, Layer, Refusal};
pub use watch::Watch;
