// What a check answers: its verdict, a count, and how many configurations it has stored.

#[derive(Clone, Copy, Debug, PartialEq, Eq)]
pub enum Verdict {
    // not settled yet
    Working,
    // every run is permitted
    Pass,
    // some run is not permitted
    Fail,
    // there are more configurations than places
    Full,
}

// The count is the shown run's states for a fail, 0 for pass and full; while working it tells that every run of so
// many states is permitted.
#[derive(Clone, Copy, Debug, PartialEq, Eq)]
pub struct Answer {
    pub verdict: Verdict,
    pub count: usize,
    pub stored: usize,
}
