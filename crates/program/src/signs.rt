// Where a list of statements goes on.
ghost use Rattle.std.specs.Prelude.{MatchBool};
ghost use Rattle.program.specs.Lists.{Begun, Ended};

use text::{Kind, Word};

// Whether a statement is to begin here: there is a word, and it closes no block.
pub(crate) fn begins(words: &[Word]) -> bool
    ensures { MatchBool result (Begun words.now) (Ended words.now) }
{
    words
        .first()
        .is_some_and(|word| word.token.kind() != Kind::CloseBrace)
}
