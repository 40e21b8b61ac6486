// Reading statements and lists of statements.
ghost use Rattle.std.specs.Prelude.{◌≡◌, MatchResult};
ghost use Rattle.program.specs.Lists.{ListDone, ListStopped, ElseRead, ElseStopped};
ghost use Rattle.program.specs.Outcomes.{StatementAnswer};
ghost use Rattle.program.specs.Starts.{words_of};

use crate::board::Board;
use crate::draft::Kind;
use crate::signs::begins;
use crate::site::Site;
use crate::start::Start;
use text::{Fault, Token, Word, next, sign, skip, unexpected};

// The site and the board stay apart: a site is another for each part, and the board is one for the whole program.

// A statement.
#[cycle(statements)]
pub(crate) fn statement<'a>(
    words: &'a [Word],
    site: Site,
    board: &mut Board,
) -> Result<&'a [Word], Fault>
    ensures { StatementAnswer site words.now board.old board.new result }
{
    let (word, rest) = next(words, site.limits.end)?;
    let start = Start { word, rest, site };
    match word.token {
        Token::Current(register) | Token::Initial(register) => start.set(register, board),
        Token::Sense => start.sense(board),
        Token::Semicolon => start.pass(board),
        Token::Break => start.leave(board),
        Token::If => start.choose(board),
        Token::While => start.repeat(board),
        Token::OpenBrace => start.braces(board),
        _ => Err(unexpected(words, site.limits.end)),
    }
}

// `else S`, where it stands.
#[cycle(statements)]
fn alternative<'a>(words: &'a [Word], site: Site, board: &mut Board) -> Result<&'a [Word], Fault>
    ensures { MatchResult result (λ y. ElseRead site words.now board.old board.new y.now) (λ f. ElseStopped site words.now board.old f) }
{
    match sign(words, Token::Else) {
        Some((_, other)) => statement(other, site, board),
        None => Ok(words),
    }
}

impl<'a> Start<'a> {
    // `if (B) S`, with `else S` or not: an `else` belongs to the nearest `if`.
    #[cycle(statements)]
    fn choose(self, board: &mut Board) -> Result<&'a [Word], Fault>
        requires { self.word.token ≡ Token.If }
        ensures { StatementAnswer self.entry.site (words_of self.entry) board.old board.new result }
    {
        let opened = self.open(board)?;
        let part = Site {
            limits: opened.limits,
            inside: self.site.inside,
            owner: Some(opened.label),
        };
        let first_behind = statement(opened.rest, part, board)?;
        let middle = board.drafts.len();
        let behind = alternative(first_behind, part, board)?;
        let test = opened.test;
        board.settle(opened.label, Kind::Choose { test, middle }, self.site.owner);
        Ok(behind)
    }

    // `while (B) S`
    #[cycle(statements)]
    fn repeat(self, board: &mut Board) -> Result<&'a [Word], Fault>
        requires { self.word.token ≡ Token.While }
        ensures { StatementAnswer self.entry.site (words_of self.entry) board.old board.new result }
    {
        let opened = self.open(board)?;
        let part = Site {
            limits: opened.limits,
            inside: true,
            owner: Some(opened.label),
        };
        let behind = statement(opened.rest, part, board)?;
        let test = opened.test;
        board.settle(opened.label, Kind::Repeat { test }, self.site.owner);
        Ok(behind)
    }

    // `{` and statements and `}`
    #[cycle(statements)]
    fn braces(self, board: &mut Board) -> Result<&'a [Word], Fault>
        requires { self.word.token ≡ Token.OpenBrace }
        ensures { StatementAnswer self.entry.site (words_of self.entry) board.old board.new result }
    {
        let limits = self.site.limits.deeper(self.word)?;
        let part = Site {
            limits,
            ..self.site
        };
        let inner = list(self.rest, part, board)?;
        skip(inner, Token::CloseBrace, self.site.limits.end)
    }
}

// Statements, to the end or to a `}` that closes what is open.
#[cycle(statements)]
pub(crate) fn list<'a>(
    words: &'a [Word],
    site: Site,
    board: &mut Board,
) -> Result<&'a [Word], Fault>
    ensures { MatchResult result (λ y. ListDone site words.now board.old board.new y.now) (λ f. ListStopped site words.now board.old f) }
{
    let mut rest = words;
    while begins(rest) {
        rest = statement(rest, site, board)?;
    }
    Ok(rest)
}
