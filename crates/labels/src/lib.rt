// Sets of labels: reading them, and asking them.
#![tactic(auto)]

mod sets;

pub use sets::{has_label, label, label_of, label_set, more_labels, with_label};
