// Reading the numbers of a declaration.
ghost use Rattle.std.specs.Prelude.{MatchResult};
ghost use Rattle.program.specs.Headers.{BoundRead, BoundStopped, NumberRead, NumberStopped};

use model::Cause;
use text::{Fault, LARGEST_NUMBER, Token, Word, next, sign, unexpected};

// The text's length stands beside the words, as in every reader of words: a pair of both would be taken apart at each call.

// A number without a sign before it.
fn number(words: &[Word], end: usize) -> Result<(i16, &[Word]), Fault>
    ensures { MatchResult result (λ y. NumberRead words.now y.0 y.1.now) (λ f. NumberStopped end words.now f) }
{
    let (word, rest) = next(words, end)?;
    match word.token {
        Token::Number(number) if number <= LARGEST_NUMBER => Ok((number as i16, rest)),
        Token::Number(_) => Err(word.fault(Cause::Number)),
        _ => Err(unexpected(words, end)),
    }
}

// A number, or a `-` and a number.
pub(crate) fn bound(words: &[Word], end: usize) -> Result<(i16, &[Word]), Fault>
    ensures { MatchResult result (λ y. BoundRead words.now y.0 y.1.now) (λ f. BoundStopped end words.now f) }
{
    match sign(words, Token::Minus) {
        Some((_, digits)) => {
            let (number, rest) = number(digits, end)?;
            Ok((-number, rest))
        }
        None => number(words, end),
    }
}
