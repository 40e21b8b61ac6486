// The start of an `if` or `while`: its first word, and `( B )`.
ghost use Rattle.std.specs.Prelude.{◌≡◌, ◌⊎◌, [], ◌∷◌, MatchResult};
ghost use Rattle.text.specs.Outcomes.{TestAnswer};
ghost use Rattle.text.specs.Table.{statement as statement_item, guard as guard_item};
ghost use Rattle.program.specs.Outcomes.{PhraseStopped, Guarded};
ghost use Rattle.program.specs.Lists.{Entered};
ghost use Rattle.program.specs.Starts.{words_of};

use crate::board::Board;
use crate::draft::Kind;
use crate::start::Start;
use text::{Expressions, Fault, Limits, Read, Token, Word, condition, expect, skip};

// An `if` or `while` whose parts are still to be read: its label, its test, the limits of its parts, and the words behind the test.
#[derive(Drop)]
pub struct Opened<'a> {
    pub label: usize,
    pub test: usize,
    pub limits: Limits,
    pub rest: &'a [Word],
}

// `( B )`: apart from the sheet's `[ B ]`, which has other signs and another item in its contract, and both are but three calls of text.
fn guard<'a>(words: &'a [Word], limits: Limits, room: &mut Expressions) -> Result<Read<'a>, Fault>
    ensures { TestAnswer (guard_item ∷ []) Guarded limits words.now room.old room.new result }
{
    let (word, rest) = expect(words, Token::OpenParen, limits.end)?;
    let inner = condition(rest, limits.deeper(word)?, room)?;
    let behind = skip(inner.rest, Token::CloseParen, limits.end)?;
    Ok(Read {
        index: inner.index,
        rest: behind,
    })
}

impl<'a> Start<'a> {
    // An `if` or `while` and its `( B )`, and a draft in its place, which is settled when its parts have been read.
    pub(crate) fn open(self, board: &mut Board) -> Result<Opened<'a>, Fault>
        requires { (self.word.token ≡ Token.If) ⊎ (self.word.token ≡ Token.While) }
        ensures { MatchResult result (λ o. Entered self.entry.site self.entry.rest.now board.old board.new o.label o.test o.limits o.rest.now) (PhraseStopped (statement_item ∷ []) self.entry.site (words_of self.entry) board.old) }
    {
        board.check_room(self.word)?;
        let limits = self.site.limits.deeper(self.word)?;
        let test = guard(self.rest, limits, &mut board.expressions)?;
        let label = board.add(Kind::Skip, self.site.owner);
        Ok(Opened {
            label,
            test: test.index,
            limits,
            rest: test.rest,
        })
    }
}
