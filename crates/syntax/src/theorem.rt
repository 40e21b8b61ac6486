// The theorem on the grammar of programs, as the contract of a function.
ghost use Rattle.syntax.specs.Phrases.{SamePrograms};

// The words that derive a program are those that the table of the grammar takes for one.
pub fn same_texts()
    ensures { SamePrograms }
{}
