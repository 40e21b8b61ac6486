// What joins two parts of an expression: the sign that stands between them, and the node that it makes of them.
ghost use Rattle.std.specs.Prelude.{◌≡◌, ℕ, List, ◌∷◌, MatchOption};
ghost use Rattle.text.specs.Derivations.{NoneOf, Free};

use crate::reading::first;
use crate::word::{Token, Word};

pub(crate) trait Operator: Copy {
    ghost use Rattle.text.specs.declared.word.Token.{Token};

    type Node;

    ghost signs: { List Token };

    ghost sign: { Self → Token };

    ghost joins: { Self → ℕ → ℕ → Self.Node };

    // The operator that a token is.
    // Not TryFrom: its ghost members say which signs there are and which node each makes.
    fn of(token: Token) -> Option<Self>
        ensures { MatchOption result (NoneOf signs token) (λ x. token ≡ sign x) };

    // The node over the two parts, by their places.
    fn node(self, left: usize, right: usize) -> Self::Node
        ensures { result ≡ joins self left right };
}

// The operator that the words begin with, its word, and the words behind it.
pub(crate) fn operator_at<O: Operator>(words: &[Word]) -> Option<(O, Word, &[Word])>
    ensures { MatchOption result (Free O.Operator.signs words.now) (λ x. (words.now ≡ x.1 ∷ x.2.now) × (x.1.token ≡ O.Operator.sign x.0)) }
{
    let (word, rest) = first(words)?;
    let operator = O::of(word.token)?;
    Some((operator, word, rest))
}
