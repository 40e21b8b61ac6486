// Reading arithmetic expressions: operands and groups, joined from the left.
ghost use Rattle.std.specs.Prelude.{◌≡◌, [], ◌∷◌, MatchResult};
ghost use Rattle.text.specs.Derivations.{Sums, one, Sum};
ghost use Rattle.text.specs.Joins.{Named, join_token, join_node, Joined};
ghost use Rattle.text.specs.Outcomes.{ArithAnswer, Stopped, Leafed, TooMany};
ghost use Rattle.text.specs.Table.{operand as operand_item, more as more_item};

use crate::expressions::Expressions;
use crate::node::ArithNode;
use crate::operator::{Operator, operator_at};
use crate::reading::{Fault, Limits, Read, next, skip, unexpected};
use crate::word::{Token, Word};
use model::Cause;

// The largest number that may stand in a text.
pub const LARGEST_NUMBER: u16 = 1000;

// The leaf of a number or a register, which is counted.
fn leaf(node: ArithNode, word: Word, room: &mut Expressions) -> Result<usize, Fault>
    ensures { MatchResult result (λ i. Leafed node room.old room.new i) (λ f. TooMany room.old word.place f) }
{
    room.count(word)?;
    Ok(room.push_arith(node))
}

// A number as an operand.
fn number<'a>(
    value: u16,
    word: Word,
    rest: &'a [Word],
    limits: Limits,
    room: &mut Expressions,
) -> Result<Read<'a>, Fault>
    requires { word.token ≡ Token.Number value }
    ensures { ArithAnswer (operand_item ∷ []) (Sums one) limits (word ∷ rest.now) room.old room.new result }
{
    if value > LARGEST_NUMBER {
        return Err(word.fault(Cause::Number));
    }
    let index = leaf(ArithNode::Number(value), word, room)?;
    Ok(Read { index, rest })
}

// A register as an operand, with its node.
fn register<'a>(
    node: ArithNode,
    word: Word,
    rest: &'a [Word],
    limits: Limits,
    room: &mut Expressions,
) -> Result<Read<'a>, Fault>
    requires { Named word.token node }
    ensures { ArithAnswer (operand_item ∷ []) (Sums one) limits (word ∷ rest.now) room.old room.new result }
{
    limits.allows(word)?;
    let index = leaf(node, word, room)?;
    Ok(Read { index, rest })
}

// A number, a register or a group. Groups, as those of tests and of sheets, are opened, read and closed in place: one function
// would take the inner reader as a parameter and be longer.
#[cycle(joined_operand_sum)]
fn operand<'a>(words: &'a [Word], limits: Limits, room: &mut Expressions) -> Result<Read<'a>, Fault>
    ensures { ArithAnswer (operand_item ∷ []) (Sums one) limits words.now room.old room.new result }
{
    let (word, rest) = next(words, limits.end)?;
    match word.token {
        Token::Number(value) => number(value, word, rest, limits, room),
        Token::Current(name) => register(ArithNode::Current(name), word, rest, limits, room),
        Token::Initial(name) => register(ArithNode::Initial(name), word, rest, limits, room),
        Token::OpenParen => {
            let inside = limits.deeper(word)?;
            let inner = sum(rest, inside, room)?;
            let behind = skip(inner.rest, Token::CloseParen, limits.end)?;
            Ok(Read {
                index: inner.index,
                rest: behind,
            })
        }
        _ => Err(unexpected(words, limits.end)),
    }
}

// The operators that join operands.
#[derive(Clone, Copy, Debug, PartialEq, Eq)]
pub enum Join {
    Plus,
    Minus,
}

impl Operator for Join {
    ghost use Rattle.text.specs.declared.word.Token.{Token};

    type Node = ArithNode;

    ghost signs = { Token.Plus ∷ Token.Minus ∷ [] };

    ghost sign = { join_token };

    ghost joins = { join_node };

    fn of(token: Token) -> Option<Join> {
        match token {
            Token::Plus => Some(Join::Plus),
            Token::Minus => Some(Join::Minus),
            _ => None,
        }
    }

    fn node(self, left: usize, right: usize) -> ArithNode {
        match self {
            Join::Plus => ArithNode::Plus(left, right),
            Join::Minus => ArithNode::Minus(left, right),
        }
    }
}

// What has been read, joined with the operand behind an operator.
#[cycle(joined_operand_sum)]
fn joined<'a>(
    index: usize,
    join: Join,
    word: Word,
    rest: &'a [Word],
    limits: Limits,
    room: &mut Expressions,
) -> Result<Read<'a>, Fault>
    requires { word.token ≡ join_token join }
    ensures { MatchResult result (λ x. Joined index join limits.scope limits.left (word ∷ rest.now) room.old room.new x.index x.rest.now) (λ f. Stopped (more_item ∷ []) limits.scope limits.left limits.end room.old.counted (word ∷ rest.now) f) }
{
    room.count(word)?;
    let right = operand(rest, limits, room)?;
    let node = join.node(index, right.index);
    Ok(Read {
        index: room.push_arith(node),
        rest: right.rest,
    })
}

// An arithmetic expression.
#[cycle(joined_operand_sum)]
pub fn sum<'a>(words: &'a [Word], limits: Limits, room: &mut Expressions) -> Result<Read<'a>, Fault>
    ensures { ArithAnswer (operand_item ∷ more_item ∷ []) Sum limits words.now room.old room.new result }
{
    let mut read = operand(words, limits, room)?;
    while let Some((join, word, rest)) = operator_at(read.rest) {
        read = joined(read.index, join, word, rest, limits, room)?;
    }
    Ok(read)
}
