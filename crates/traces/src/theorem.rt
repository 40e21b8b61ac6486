// The theorem on prefix traces, as the contract of a function.
ghost use Rattle.traces.specs.Tables.{TracesArePaths};

// The prefix traces of every program are the paths of steps of its table, from its starts.
pub fn traces_are_paths()
    ensures { TracesArePaths }
{}
