// Reading statements that have no statements in them.
ghost use Rattle.std.specs.Prelude.{◌≡◌, ◌∷◌, MatchResult};
ghost use Rattle.grammar.specs.Grammars.{Quiet};
ghost use Rattle.text.specs.Reading.{FaultAt};
ghost use Rattle.text.specs.Table.{sensed as sensed_item, rules_of};
ghost use Rattle.program.specs.Outcomes.{StatementAnswer, Letter};
ghost use Rattle.program.specs.Starts.{words_of};

use crate::board::Board;
use crate::draft::Kind;
use crate::start::Start;
use model::Cause;
use text::{Fault, Register, Token, Word, next, skip, sum, unexpected};

impl<'a> Start<'a> {
    // `a = A;`
    pub(crate) fn set(self, register: Register, board: &mut Board) -> Result<&'a [Word], Fault>
        requires { Letter self.word.token register }
        ensures { StatementAnswer self.entry.site (words_of self.entry) board.old board.new result }
    {
        let limits = self.site.limits;
        self.site.limits.allows(self.word)?;
        board.check_room(self.word)?;
        let right = skip(self.rest, Token::Set, limits.end)?;
        let read = sum(right, limits, &mut board.expressions)?;
        let behind = skip(read.rest, Token::Semicolon, limits.end)?;
        let value = read.index;
        board.add(Kind::Set { register, value }, self.site.owner);
        Ok(behind)
    }

    // `sense a;`
    pub(crate) fn sense(self, board: &mut Board) -> Result<&'a [Word], Fault>
        requires { self.word.token ≡ Token.Sense }
        ensures { StatementAnswer self.entry.site (words_of self.entry) board.old board.new result }
    {
        let end = self.site.limits.end;
        board.check_room(self.word)?;
        let (register, name, after) = named(self.rest, end)?;
        self.site.limits.allows(name)?;
        let behind = skip(after, Token::Semicolon, end)?;
        board.add(Kind::Sense { register }, self.site.owner);
        Ok(behind)
    }

    // `;`
    pub(crate) fn pass(self, board: &mut Board) -> Result<&'a [Word], Fault>
        requires { self.word.token ≡ Token.Semicolon }
        ensures { StatementAnswer self.entry.site (words_of self.entry) board.old board.new result }
    {
        board.check_room(self.word)?;
        board.add(Kind::Skip, self.site.owner);
        Ok(self.rest)
    }

    // `break;`
    pub(crate) fn leave(self, board: &mut Board) -> Result<&'a [Word], Fault>
        requires { self.word.token ≡ Token.Break }
        ensures { StatementAnswer self.entry.site (words_of self.entry) board.old board.new result }
    {
        if !self.site.inside {
            return Err(self.word.fault(Cause::Break));
        }
        board.check_room(self.word)?;
        let behind = skip(self.rest, Token::Semicolon, self.site.limits.end)?;
        board.add(Kind::Break, self.site.owner);
        Ok(behind)
    }
}

// The register that is sensed, which must stand here, its word, and the words behind it.
fn named(words: &[Word], end: usize) -> Result<(Register, Word, &[Word]), Fault>
    ensures { MatchResult result (λ x. (words.now ≡ x.1 ∷ x.2.now) × Letter x.1.token x.0) (λ f. FaultAt end words.now f × Quiet (rules_of sensed_item) words.now) }
{
    let (word, rest) = next(words, end)?;
    match word.token {
        Token::Current(register) | Token::Initial(register) => Ok((register, word, rest)),
        _ => Err(unexpected(words, end)),
    }
}
