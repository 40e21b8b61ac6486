// The first steps of every reader: the next word, a sign that must stand here, and the fault where none goes on.
// The words and the text's end are passed apart, and so are a word and the words behind it: a pair of them would be taken apart at each call.
ghost use Rattle.std.specs.Prelude.{◌≡◌, true, [], ◌∷◌, MatchOption, MatchResult};
ghost use Rattle.text.specs.Reading.{FaultAt, Skipped, Unlike, Deeper, TooDeep, NotAllowed};
ghost use Rattle.text.specs.Words.{at, allowed};

use crate::word::{Scope, Token, Word};
use model::{Cause, Layer, Refusal};

// The most that may be open at one word.
const DEEPEST: usize = 16;

// What is wrong with a text, and where.
#[derive(Clone, Copy, Debug, PartialEq, Eq)]
pub struct Fault {
    pub cause: Cause,
    pub place: usize,
}

// What every reader knows of its text: the registers that may stand, the text's length, and how many more may be opened.
// The room for nodes is passed beside it: limits are copied into each group, where there is one room for the whole text.
#[derive(Clone, Copy, Debug, PartialEq, Eq)]
pub struct Limits {
    pub scope: Scope,
    pub end: usize,
    pub left: usize,
}

// What has been read: the place of its last node, and the words behind it.
#[derive(Drop)]
pub struct Read<'a> {
    pub index: usize,
    pub rest: &'a [Word],
}

impl Fault {
    // The refusal of a text with this fault.
    pub fn refused(self, layer: Layer) -> Refusal
        ensures { result ≡ record { layer = layer; cause = self.cause; place = self.place } }
    {
        Refusal::new(layer, self.cause, self.place)
    }
}

impl Limits {
    // The limits of a whole text: nothing is open yet.
    pub fn new(scope: Scope, end: usize) -> Limits
        ensures { result ≡ record { scope = scope; end = end; left = 16 } }
    {
        Limits {
            scope,
            end,
            left: DEEPEST,
        }
    }

    // The limits inside what a word opens.
    pub fn deeper(self, word: Word) -> Result<Limits, Fault>
        ensures { MatchResult result (Deeper self) (TooDeep self word) }
    {
        if self.left == 0 {
            return Err(word.fault(Cause::Deep));
        }
        Ok(Limits {
            left: self.left - 1,
            ..self
        })
    }

    // Whether a register's word may stand; it has the fault if not.
    pub fn allows(self, word: Word) -> Result<(), Fault>
        ensures { MatchResult result (λ _. allowed self.scope word.token ≡ true) (NotAllowed self word) }
    {
        if self.scope.allows(word.token) {
            Ok(())
        } else {
            Err(word.fault(Cause::Register))
        }
    }
}

// The next word, and the words behind it.
pub fn first(words: &[Word]) -> Option<(Word, &[Word])>
    ensures { MatchOption result (words.now ≡ []) (λ x. words.now ≡ x.0 ∷ x.1.now) }
{
    let (word, rest) = words.split_first()?;
    Some((*word, rest))
}

// The next word, which must be there, and the words behind it.
pub fn next(words: &[Word], end: usize) -> Result<(Word, &[Word]), Fault>
    ensures { MatchResult result (λ x. words.now ≡ x.0 ∷ x.1.now) (λ f. FaultAt end words.now f × (words.now ≡ [])) }
{
    first(words).ok_or_else(|| unexpected(words, end))
}

// The fault where no text goes on with these words, in a text of a given length.
pub fn unexpected(words: &[Word], end: usize) -> Fault
    ensures { FaultAt end words.now result }
{
    match first(words) {
        None => Fault {
            cause: Cause::Unexpected,
            place: end,
        },
        Some((word, _)) => match word.token {
            Token::Stray => word.fault(Cause::Byte),
            _ => word.fault(Cause::Unexpected),
        },
    }
}

// The next word and the words behind it, if it is of the sign's kind.
pub fn sign(words: &[Word], sign: Token) -> Option<(Word, &[Word])>
    ensures { MatchOption result (Unlike sign words.now) (λ x. (words.now ≡ x.0 ∷ x.1.now) × (at sign x.0 ≡ true)) }
{
    let (word, rest) = first(words)?;
    if word.token.kind() == sign.kind() {
        Some((word, rest))
    } else {
        None
    }
}

// The next word and the words behind it, where it must be of the sign's kind.
pub fn expect(words: &[Word], mark: Token, end: usize) -> Result<(Word, &[Word]), Fault>
    ensures { MatchResult result (λ x. (words.now ≡ x.0 ∷ x.1.now) × (at mark x.0 ≡ true)) (λ f. FaultAt end words.now f × Unlike mark words.now) }
{
    sign(words, mark).ok_or_else(|| unexpected(words, end))
}

// The words behind a sign that must stand here.
pub fn skip(words: &[Word], sign: Token, end: usize) -> Result<&[Word], Fault>
    ensures { MatchResult result (λ x. Skipped sign words.now x.now) (λ f. FaultAt end words.now f × Unlike sign words.now) }
{
    let (_, rest) = expect(words, sign, end)?;
    Ok(rest)
}
