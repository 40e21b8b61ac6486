// Reading boolean expressions: comparisons and groups, joined from the left.
ghost use Rattle.std.specs.Prelude.{◌≡◌, [], ◌∷◌, MatchResult};
ghost use Rattle.text.specs.Derivations.{Tests, one_of, Condition, Free};
ghost use Rattle.text.specs.Links.{compare_token, compare_node, link_token, link_node, Linked};
ghost use Rattle.text.specs.Outcomes.{TestAnswer, Stopped};
ghost use Rattle.text.specs.Reading.{FaultAt};
ghost use Rattle.text.specs.Table.{one_test as one_test_item, joined as joined_item};

use crate::arith::sum;
use crate::expressions::Expressions;
use crate::node::TestNode;
use crate::operator::{Operator, operator_at};
use crate::reading::{Fault, Limits, Read, next, skip, unexpected};
use crate::word::{Token, Word};

// The operators that compare two arithmetic expressions.
#[derive(Clone, Copy, Debug, PartialEq, Eq)]
pub enum Compare {
    Less,
    AtMost,
    Equal,
}

impl Operator for Compare {
    ghost use Rattle.text.specs.declared.word.Token.{Token};

    type Node = TestNode;

    ghost signs = { Token.Less ∷ Token.AtMost ∷ Token.Equal ∷ [] };

    ghost sign = { compare_token };

    ghost joins = { compare_node };

    fn of(token: Token) -> Option<Compare> {
        match token {
            Token::Less => Some(Compare::Less),
            Token::AtMost => Some(Compare::AtMost),
            Token::Equal => Some(Compare::Equal),
            _ => None,
        }
    }

    fn node(self, left: usize, right: usize) -> TestNode {
        match self {
            Compare::Less => TestNode::Less(left, right),
            Compare::AtMost => TestNode::AtMost(left, right),
            Compare::Equal => TestNode::Equal(left, right),
        }
    }
}

// The operators that join tests.
#[derive(Clone, Copy, Debug, PartialEq, Eq)]
pub enum Link {
    And,
    Or,
    Nand,
}

impl Operator for Link {
    ghost use Rattle.text.specs.declared.word.Token.{Token};

    type Node = TestNode;

    ghost signs = { Token.And ∷ Token.Or ∷ Token.Nand ∷ [] };

    ghost sign = { link_token };

    ghost joins = { link_node };

    fn of(token: Token) -> Option<Link> {
        match token {
            Token::And => Some(Link::And),
            Token::Or => Some(Link::Or),
            Token::Nand => Some(Link::Nand),
            _ => None,
        }
    }

    fn node(self, left: usize, right: usize) -> TestNode {
        match self {
            Link::And => TestNode::Both(left, right),
            Link::Or => TestNode::Either(left, right),
            Link::Nand => TestNode::NotBoth(left, right),
        }
    }
}

// The test that always holds.
fn truth<'a>(
    word: Word,
    rest: &'a [Word],
    limits: Limits,
    room: &mut Expressions,
) -> Result<Read<'a>, Fault>
    requires { word.token ≡ Token.True }
    ensures { TestAnswer (one_test_item ∷ []) (Tests one_of) limits (word ∷ rest.now) room.old room.new result }
{
    room.count(word)?;
    Ok(Read {
        index: room.push_test(TestNode::Always),
        rest,
    })
}

// The comparison that must stand here, its word, and the words behind it.
fn comparator(words: &[Word], end: usize) -> Result<(Compare, Word, &[Word]), Fault>
    ensures { MatchResult result (λ x. (words.now ≡ x.1 ∷ x.2.now) × (x.1.token ≡ compare_token x.0)) (λ f. FaultAt end words.now f × Free (Token.Less ∷ Token.AtMost ∷ Token.Equal ∷ []) words.now) }
{
    operator_at(words).ok_or_else(|| unexpected(words, end))
}

// Two arithmetic expressions that are compared.
fn comparison<'a>(
    words: &'a [Word],
    limits: Limits,
    room: &mut Expressions,
) -> Result<Read<'a>, Fault>
    requires { Free (Token.True ∷ Token.OpenBracket ∷ []) words.now }
    ensures { TestAnswer (one_test_item ∷ []) (Tests one_of) limits words.now room.old room.new result }
{
    let a = sum(words, limits, room)?;
    let (compare, word, rest) = comparator(a.rest, limits.end)?;
    room.count(word)?;
    let b = sum(rest, limits, room)?;
    let node = compare.node(a.index, b.index);
    Ok(Read {
        index: room.push_test(node),
        rest: b.rest,
    })
}

// `true`, a comparison or a group.
#[cycle(condition_linked_one_test)]
fn one_test<'a>(
    words: &'a [Word],
    limits: Limits,
    room: &mut Expressions,
) -> Result<Read<'a>, Fault>
    ensures { TestAnswer (one_test_item ∷ []) (Tests one_of) limits words.now room.old room.new result }
{
    let (word, rest) = next(words, limits.end)?;
    match word.token {
        Token::True => truth(word, rest, limits, room),
        Token::OpenBracket => {
            let inside = limits.deeper(word)?;
            let inner = condition(rest, inside, room)?;
            let behind = skip(inner.rest, Token::CloseBracket, limits.end)?;
            Ok(Read {
                index: inner.index,
                rest: behind,
            })
        }
        _ => comparison(words, limits, room),
    }
}

// What has been read, joined with the test behind an operator.
// It goes as a sum does, and so do one test and a condition; one function over both would take their readers, trees and vectors as parameters and be longer.
#[cycle(condition_linked_one_test)]
fn linked<'a>(
    index: usize,
    link: Link,
    word: Word,
    rest: &'a [Word],
    limits: Limits,
    room: &mut Expressions,
) -> Result<Read<'a>, Fault>
    requires { word.token ≡ link_token link }
    ensures { MatchResult result (λ x. Linked index link limits.scope limits.left (word ∷ rest.now) room.old room.new x.index x.rest.now) (λ f. Stopped (joined_item ∷ []) limits.scope limits.left limits.end room.old.counted (word ∷ rest.now) f) }
{
    room.count(word)?;
    let right = one_test(rest, limits, room)?;
    let node = link.node(index, right.index);
    Ok(Read {
        index: room.push_test(node),
        rest: right.rest,
    })
}

// A boolean expression.
#[cycle(condition_linked_one_test)]
pub fn condition<'a>(
    words: &'a [Word],
    limits: Limits,
    room: &mut Expressions,
) -> Result<Read<'a>, Fault>
    ensures { TestAnswer (one_test_item ∷ joined_item ∷ []) Condition limits words.now room.old room.new result }
{
    let mut read = one_test(words, limits, room)?;
    while let Some((link, word, rest)) = operator_at(read.rest) {
        read = linked(read.index, link, word, rest, limits, room)?;
    }
    Ok(read)
}
