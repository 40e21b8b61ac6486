// Cutting a text into words.
#![tactic(auto)]

mod cutting;
mod scan;
mod words;

pub use words::Words;
