// What a check is doing, or how it was settled.

// Levels and places are counted in 32 bits: a table has at most 1,000,000 places.
#[derive(Clone, Copy, Debug, PartialEq, Eq)]
pub enum Phase {
    // looking through a level that begins at place `low`, with place `next` to come
    Looking { level: u32, low: u32, next: u32 },
    // extending a level that ends before place `end`, with place `next` to come
    Extending { level: u32, end: u32, next: u32 },
    // settled: every run is permitted
    Passing,
    // settled by a code behind a run of `before` states, the last of them at `place`
    Failing { before: u32, place: u32, code: u64 },
    // settled: a configuration found no place
    Filled,
}
