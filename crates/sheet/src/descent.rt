// Reading a sheet: recursive descent over its words, with the number of brackets that may yet be opened.
// Limits and draft are no one struct: each bracket has limits of its own, and all write into the one draft that they are lent.
// Nor are a word and the words behind it: each function takes the word's fault and reads on behind it, and a pair would be taken
// apart in each.
ghost use Rattle.std.specs.Prelude.{◌≡◌, ℕ, ◌+◌, ◌*◌, ◌<◌, [], ◌∷◌, vec_len, MatchBool, MatchOption, MatchResult};
ghost use Rattle.text.specs.Derivations.{Free};
ghost use Rattle.text.specs.Outcomes.{TestAnswer};
ghost use Rattle.text.specs.Table.{bracketed as bracketed_item, unit as unit_item, repeats as repeats_item};
ghost use Rattle.sheet.specs.Texts.{NoItem, row as row_part, choice as choice_part};
ghost use Rattle.sheet.specs.Drafts.{Fresh};
ghost use Rattle.sheet.specs.Owed.{Stopped, Stops, Bracketed, TestedRead, TestedStops, UnitRead, UnitAnswer, RepeatsRead, RepeatsStop, RepeatSign, Noded, TooMany, ItemRead, ItemBegins, NextItem, RowAnswer, NextRow, TailStops, RestRead, RestStops, WholeRead, WholeStops};

use crate::draft::Draft;
use crate::tree::{Labels, Leaf, Node};
use labels::{label_of, more_labels};
use regular::with;
use text::{
    Expressions, Fault, Limits, Read, Scope, Token, Word, condition, expect, first, next, sign,
    skip, unexpected,
};

// [ B ]. Not shared with a guard's `( B )`: each is contracted by its own item of the grammar's table, and a function over both
// would take the signs, the item and the derivation of either.
fn bracketed<'a>(
    words: &'a [Word],
    limits: Limits,
    tests: &mut Expressions,
) -> Result<Read<'a>, Fault>
    ensures { TestAnswer (bracketed_item ∷ []) Bracketed limits words.now tests.old tests.new result }
{
    let (word, rest) = expect(words, Token::OpenBracket, limits.end)?;
    let inside = limits.deeper(word)?;
    let test = condition(rest, inside, tests)?;
    let behind = skip(test.rest, Token::CloseBracket, limits.end)?;
    Ok(Read {
        index: test.index,
        rest: behind,
    })
}

// `:` and [ B ] behind the labels of an assertion that has been counted. The tests of a sheet may name every register.
fn tested<'a>(
    labels: Labels,
    words: &'a [Word],
    limits: Limits,
    draft: &mut Draft,
) -> Result<Read<'a>, Fault>
    requires { vec_len draft.old.leaves < 60 }
    ensures { MatchResult result (λ x. TestedRead draft.old labels limits.left words.now draft.new x.index x.rest.now) (λ f. Stopped (TestedStops draft.old limits.left words.now) limits.end f) }
{
    let inside = skip(words, Token::Colon, limits.end)?;
    // Set again, as no clause carries it from the whole text's limits to here.
    let every = Limits {
        scope: Scope::Every,
        ..limits
    };
    let test = bracketed(inside, every, &mut draft.tests)?;
    let index = draft.assert(Leaf::Given(labels, test.index));
    Ok(Read {
        index,
        rest: test.rest,
    })
}

// An assertion for all labels, behind its `?`.
fn question<'a>(
    word: Word,
    rest: &'a [Word],
    limits: Limits,
    draft: &mut Draft,
) -> Result<Read<'a>, Fault>
    requires { word.token ≡ Token.Question }
    ensures { UnitAnswer draft.old limits (word ∷ rest.now) draft.new result }
{
    draft.room_for_assertion(word)?;
    tested(Labels::All, rest, limits, draft)
}

// An assertion for some labels, behind the first of them.
fn numbered<'a>(
    number: u16,
    word: Word,
    rest: &'a [Word],
    limits: Limits,
    draft: &mut Draft,
) -> Result<Read<'a>, Fault>
    requires { word.token ≡ Token.Number number }
    ensures { UnitAnswer draft.old limits (word ∷ rest.now) draft.new result }
{
    let label = label_of(number, word)?;
    draft.room_for_assertion(word)?;
    let (labels, behind) = more_labels(with(0, label as usize), rest, limits.end)?;
    tested(Labels::Among(labels), behind, limits, draft)
}

// The node of a sign, which is counted.
fn signed(node: Node, word: Word, draft: &mut Draft) -> Result<usize, Fault>
    ensures { MatchResult result (λ i. Noded draft.old draft.new node i) (λ f. TooMany draft.old word.place f) }
{
    draft.count_sign(word)?;
    Ok(draft.push(node))
}

// The empty sequence.
fn empty<'a>(word: Word, rest: &'a [Word], draft: &mut Draft) -> Result<Read<'a>, Fault>
    requires { word.token ≡ Token.Empty }
    ensures { MatchResult result (λ x. (left : ℕ) → UnitRead draft.old left (word ∷ rest.now) draft.new x.index x.rest.now) (λ f. (left end : ℕ) → Stopped (Stops draft.old left (unit_item ∷ []) (word ∷ rest.now)) end f) }
{
    let index = signed(Node::Empty, word, draft)?;
    Ok(Read { index, rest })
}

// The `*` or `+` that repeats an item, as a node over it, its word, and the words behind it.
fn repeat(index: usize, words: &[Word]) -> Option<(Node, Word, &[Word])>
    ensures { MatchOption result (Free (Token.Star ∷ Token.Plus ∷ []) words.now) (λ x. RepeatSign index words.now x.0 x.1 x.2.now) }
{
    let (word, rest) = first(words)?;
    match word.token {
        Token::Star => Some((Node::Star(index), word, rest)),
        Token::Plus => Some((Node::Plus(index), word, rest)),
        _ => None,
    }
}

// The `*` and `+` behind an item.
fn repeats<'a>(index: usize, words: &'a [Word], draft: &mut Draft) -> Result<Read<'a>, Fault>
    ensures { MatchResult result (λ x. RepeatsRead draft.old words.now index draft.new x.index x.rest.now) (λ f. (end : ℕ) → Stopped (RepeatsStop draft.old words.now) end f) }
{
    let mut read = Read { index, rest: words };
    while let Some((node, word, rest)) = repeat(read.index, read.rest) {
        let index = signed(node, word, draft)?;
        read = Read { index, rest };
    }
    Ok(read)
}

// Whether an item begins here.
fn begins_item(words: &[Word]) -> bool
    ensures { MatchBool result (ItemBegins words.now) (NoItem words.now) }
{
    match words {
        [] => false,
        [word, ..] => matches!(
            word.token,
            Token::Empty | Token::OpenParen | Token::Question | Token::Number(_)
        ),
    }
}

// An item, without the `*` and `+` behind it.
#[cycle(choice_item_next_item_next_row_row_unit)]
fn unit<'a>(words: &'a [Word], limits: Limits, draft: &mut Draft) -> Result<Read<'a>, Fault>
    ensures { UnitAnswer draft.old limits words.now draft.new result }
{
    let (word, rest) = next(words, limits.end)?;
    match word.token {
        Token::Empty => empty(word, rest, draft),
        Token::Question => question(word, rest, limits, draft),
        Token::Number(number) => numbered(number, word, rest, limits, draft),
        Token::OpenParen => {
            let inside = limits.deeper(word)?;
            let inner = choice(rest, inside, draft)?;
            let behind = skip(inner.rest, Token::CloseParen, limits.end)?;
            Ok(Read {
                index: inner.index,
                rest: behind,
            })
        }
        _ => Err(unexpected(words, limits.end)),
    }
}

// An item, with the `*` and `+` behind it.
#[cycle(choice_item_next_item_next_row_row_unit)]
fn item<'a>(words: &'a [Word], limits: Limits, draft: &mut Draft) -> Result<Read<'a>, Fault>
    ensures { MatchResult result (λ x. ItemRead draft.old limits.left words.now draft.new x.index x.rest.now) (λ f. Stopped (Stops draft.old limits.left (unit_item ∷ repeats_item ∷ []) words.now) limits.end f) }
{
    let bare = unit(words, limits, draft)?;
    repeats(bare.index, bare.rest, draft)
}

// One more item in a row.
#[cycle(choice_item_next_item_next_row_row_unit)]
fn next_item<'a>(
    index: usize,
    words: &'a [Word],
    limits: Limits,
    draft: &mut Draft,
) -> Result<Read<'a>, Fault>
    ensures { MatchResult result (λ x. NextItem draft.old limits.left index words.now draft.new x.index x.rest.now) (λ f. Stopped (Stops draft.old limits.left (unit_item ∷ repeats_item ∷ []) words.now) limits.end f) }
{
    let next = item(words, limits, draft)?;
    Ok(Read {
        index: draft.push(Node::Sequence(index, next.index)),
        rest: next.rest,
    })
}

// Items in a row.
#[cycle(choice_item_next_item_next_row_row_unit)]
fn row<'a>(words: &'a [Word], limits: Limits, draft: &mut Draft) -> Result<Read<'a>, Fault>
    ensures { RowAnswer row_part draft.old limits words.now draft.new result }
{
    let mut read = item(words, limits, draft)?;
    while begins_item(read.rest) {
        read = next_item(read.index, read.rest, limits, draft)?;
    }
    Ok(read)
}

// One more row, behind its `|`.
#[cycle(choice_item_next_item_next_row_row_unit)]
fn next_row<'a>(
    index: usize,
    word: Word,
    rest: &'a [Word],
    limits: Limits,
    draft: &mut Draft,
) -> Result<Read<'a>, Fault>
    requires { word.token ≡ Token.Bar }
    ensures { MatchResult result (λ x. NextRow draft.old limits.left index (word ∷ rest.now) rest.now draft.new x.index x.rest.now) (λ f. Stopped (TailStops draft.old limits.left (word ∷ rest.now)) limits.end f) }
{
    draft.count_sign(word)?;
    let next = row(rest, limits, draft)?;
    Ok(Read {
        index: draft.push(Node::Alternative(index, next.index)),
        rest: next.rest,
    })
}

// Rows with `|` between them.
#[cycle(choice_item_next_item_next_row_row_unit)]
fn choice<'a>(words: &'a [Word], limits: Limits, draft: &mut Draft) -> Result<Read<'a>, Fault>
    ensures { RowAnswer choice_part draft.old limits words.now draft.new result }
{
    let mut read = row(words, limits, draft)?;
    while let Some((word, rest)) = sign(read.rest, Token::Bar) {
        read = next_row(read.index, word, rest, limits, draft)?;
    }
    Ok(read)
}

// `rest` behind the expression: any number of moments more, whatever they are.
fn rested(
    index: usize,
    word: Word,
    rest: &[Word],
    end: usize,
    draft: &mut Draft,
) -> Result<(), Fault>
    requires sign { word.token ≡ Token.Rest }
    requires room { vec_len draft.old.nodes < 2 * (vec_len draft.old.leaves + draft.old.signs) }
    ensures { MatchResult result (λ _. RestRead draft.old index (word ∷ rest.now) rest.now draft.new) (λ f. Stopped (RestStops draft.old (word ∷ rest.now)) end f) }
{
    draft.room_for_assertion(word)?;
    if !rest.is_empty() {
        return Err(unexpected(rest, end));
    }
    let anything = draft.assert(Leaf::Anything);
    let more = draft.push(Node::Star(anything));
    let _root = draft.push(Node::Sequence(index, more));
    Ok(())
}

// The whole sheet, into an empty draft.
pub(crate) fn whole(words: &[Word], end: usize, draft: &mut Draft) -> Result<(), Fault>
    requires { Fresh draft.old }
    ensures { MatchResult result (λ _. WholeRead draft.old words.now draft.new) (λ f. Stopped (WholeStops draft.old words.now) end f) }
{
    let read = choice(words, Limits::new(Scope::Every, end), draft)?;
    match first(read.rest) {
        None => Ok(()),
        Some((word, rest)) => match word.token {
            Token::Rest => rested(read.index, word, rest, end, draft),
            _ => Err(unexpected(read.rest, end)),
        },
    }
}
