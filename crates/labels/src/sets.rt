// Sets of labels: `?` for all, or numbers with commas; a set is a word of 64 bits.
ghost use Rattle.std.specs.Prelude.{◌≡◌, ℕ, ◌<◌, true, [], ◌∷◌, if◌then◌else◌, MatchResult, nat_eq};
ghost use Rattle.labels.specs.LabelBits.{bit, LabelAt, LabelStops, NoLabel, MoreRead, SetRead};
ghost use Rattle.text.specs.Table.{label as label_item, more_labels as more_labels_item, label_set as label_set_item};

use model::Cause;
use regular::{has, with};
use text::{Fault, Token, Word, next, sign, unexpected};

// The largest label.
pub const LARGEST_LABEL: u16 = 63;

// Whether a label is in a set; no number from 64 on is.
pub fn has_label(labels: u64, label: u8) -> bool
    ensures { result ≡ bit labels label }
{
    has(labels, label as usize)
}

// The set with one more label; a number that is no label changes nothing.
pub fn with_label(labels: u64, label: u16) -> u64
    ensures { (i : ℕ) → i < 64 → bit result i ≡ (if nat_eq i label then true else bit labels i) }
{
    with(labels, label as usize)
}

// The label that a word's number is, where it is not too large.
pub fn label_of(n: u16, word: Word) -> Result<u16, Fault>
    ensures { MatchResult result (λ x. (x ≡ n) × (n < 64)) (λ f. NoLabel n word f) }
{
    if n > LARGEST_LABEL {
        return Err(word.fault(Cause::Number));
    }
    Ok(n)
}

// A label that must stand here.
pub fn label(words: &[Word], end: usize) -> Result<(u16, &[Word]), Fault>
    ensures { MatchResult result (λ x. LabelAt words.now x.0 x.1.now) (λ f. LabelStops (label_item ∷ []) end words.now f) }
{
    let (word, rest) = next(words, end)?;
    match word.token {
        Token::Number(n) => Ok((label_of(n, word)?, rest)),
        _ => Err(unexpected(words, end)),
    }
}

// The set with the labels that follow, each behind a comma.
pub fn more_labels(labels: u64, words: &[Word], end: usize) -> Result<(u64, &[Word]), Fault>
    ensures { MatchResult result (λ x. MoreRead labels words.now x.0 x.1.now) (λ f. LabelStops (more_labels_item ∷ []) end words.now f) }
{
    let mut set = labels;
    let mut left = words;
    while let Some((_, behind)) = sign(left, Token::Comma) {
        let (n, rest) = label(behind, end)?;
        set = with(set, n as usize);
        left = rest;
    }
    Ok((set, left))
}

// A set of labels.
pub fn label_set(words: &[Word], end: usize) -> Result<(u64, &[Word]), Fault>
    ensures { MatchResult result (λ x. SetRead words.now x.0 x.1.now) (λ f. LabelStops (label_set_item ∷ []) end words.now f) }
{
    let (word, rest) = next(words, end)?;
    match word.token {
        Token::Question => Ok((u64::MAX, rest)),
        Token::Number(n) => more_labels(with(0, label_of(n, word)? as usize), rest, end),
        _ => Err(unexpected(words, end)),
    }
}
