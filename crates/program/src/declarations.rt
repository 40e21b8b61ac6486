// Reading declarations.
ghost use Rattle.std.specs.Prelude.{◌≡◌, ◌<◌, ◌∷◌, MatchOption, MatchResult};
ghost use Rattle.text.specs.Reading.{FaultAt};
ghost use Rattle.program.specs.Headers.{HeaderRead, HeaderStopped, Onward, Lettered, Unlettered, NoReg};

use crate::bounds::bound;
use crate::header::Header;
use model::Cause;
use text::{Fault, Register, Token, Word, expect, next, sign, unexpected};
use traces::Range;

// The number of registers.
const REGISTERS: usize = 6;

// The letter of a register from a given one on, which must stand here, and the words behind it.
fn letter(words: &[Word], least: usize, end: usize) -> Result<(Register, &[Word]), Fault>
    ensures { MatchResult result (λ x. Lettered least words.now (x.0, x.1.now)) (λ f. FaultAt end words.now f × Unlettered least words.now) }
{
    let (word, rest) = next(words, end)?;
    match word.token {
        Token::Current(register) if register.index() >= least => Ok((register, rest)),
        _ => Err(unexpected(words, end)),
    }
}

// One declaration, behind its `reg`.
fn declaration<'a>(words: &'a [Word], header: &mut Header, end: usize) -> Result<&'a [Word], Fault>
    ensures { MatchResult result (λ y. Onward header.old words.now (λ ws. HeaderRead ws header.new y.now) × (header.old.next < header.new.next)) (λ f. Onward header.old words.now (λ ws. HeaderStopped end ws f)) }
{
    let (register, numbers) = letter(words, header.next, end)?;
    let (low, rest1) = bound(numbers, end)?;
    let (high, rest2) = bound(rest1, end)?;
    let (from, rest3) = bound(rest2, end)?;
    let (to, rest4) = bound(rest3, end)?;
    let (mark, behind) = expect(rest4, Token::Semicolon, end)?;
    // Not by `ok_or`: what `new` says of none is then said of no fault.
    let Some(range) = Range::new(low, high, from, to) else {
        return Err(mark.fault(Cause::Range));
    };
    header.declare(register, range, mark)?;
    Ok(behind)
}

// The words behind a `reg`, where a register may still be declared.
fn declares(words: &[Word], next: usize) -> Option<(Word, &[Word])>
    ensures { MatchOption result (NoReg next words.now) (λ x. (words.now ≡ x.0 ∷ x.1.now) × (x.0.token ≡ Token.Reg) × (next < 6)) }
{
    if next >= REGISTERS {
        return None;
    }
    sign(words, Token::Reg)
}

// The declarations of a program.
pub(crate) fn declarations<'a>(
    words: &'a [Word],
    header: &mut Header,
    end: usize,
) -> Result<&'a [Word], Fault>
    requires { HeaderRead words.now header.old words.now }
    ensures { MatchResult result (λ y. HeaderRead words.now header.new y.now × NoReg header.new.next y.now) (λ f. HeaderStopped end words.now f) }
{
    let mut rest = words;
    while let Some((_, behind)) = declares(rest, header.next) {
        rest = declaration(behind, header, end)?;
    }
    Ok(rest)
}
