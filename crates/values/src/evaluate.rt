// What expressions say of a moment.
ghost use Rattle.std.specs.Prelude.{◌≡◌, ◌≤◌, length, pos, negsuc, ◌≤ℤ◌};
ghost use Rattle.text.specs.Expressions.{Arith, Test, value as value_of, holds as holds_of, register as register_value};
ghost use Rattle.text.specs.Words.{register_index};
ghost use Rattle.text.specs.Nodes.{ArithAt, TestAt};
ghost use Rattle.values.specs.Evaluation.{ValueSo, HoldsSo};

use model::Moment;
use text::{ArithNode, Expressions, Register, TestNode};

// The value of the arithmetic expression that stands at a place, exactly.
pub fn value(expressions: &Expressions, index: usize, moment: &Moment) -> i32
    ensures { (a : Arith) → ArithAt expressions.now.ariths.items index a → result ≡ value_of moment.now a }
{
    arith_value(expressions.ariths(), index, moment)
}

// Whether the boolean expression that stands at a place holds.
pub fn holds(expressions: &Expressions, index: usize, moment: &Moment) -> bool
    ensures { HoldsSo moment.now expressions.now.ariths.items expressions.now.tests.items index result }
{
    test_holds(expressions.ariths(), expressions.tests(), index, moment)
}

// The value of one register.
fn reading(values: &[i16; 6], register: Register) -> i32
    ensures value { result ≡ register_value values.now (register_index register) }
    ensures low { negsuc 65535 ≤ℤ result }
    ensures high { result ≤ℤ pos 65536 }
{
    i32::from(values[register.index()])
}

// An operand stands before its operator and is looked for there alone. A number or a register is at most 65,536 in size, and a
// tree at a place below 256 has at most 256 nodes, so that its value is at most 2^24 in size: in 32 bits no sum is ever cut off.
// The 256 stands in both contracts: what stands before a node is a slice, and no `Expressions`, whose invariant says it.
fn arith_value(nodes: &[ArithNode], index: usize, moment: &Moment) -> i32
    requires { length nodes.now ≤ 256 }
    ensures { ValueSo moment.now nodes.now index result }
{
    let Some(node) = nodes.get(index) else {
        return 0;
    };
    let before = &nodes[..index];
    match *node {
        ArithNode::Number(n) => i32::from(n),
        ArithNode::Current(register) => reading(&moment.values, register),
        ArithNode::Initial(register) => reading(&moment.starts, register),
        ArithNode::Plus(a, b) => {
            arith_value(before, a, moment).saturating_add(arith_value(before, b, moment))
        }
        ArithNode::Minus(a, b) => {
            arith_value(before, a, moment).saturating_sub(arith_value(before, b, moment))
        }
    }
}

// Whether the boolean expression at a place holds, over arithmetic nodes of the same text.
fn test_holds(ariths: &[ArithNode], tests: &[TestNode], index: usize, moment: &Moment) -> bool
    requires { length ariths.now ≤ 256 }
    ensures { HoldsSo moment.now ariths.now tests.now index result }
{
    let Some(node) = tests.get(index) else {
        return false;
    };
    let before = &tests[..index];
    match *node {
        TestNode::Always => true,
        TestNode::Less(a, b) => arith_value(ariths, a, moment) < arith_value(ariths, b, moment),
        TestNode::AtMost(a, b) => arith_value(ariths, a, moment) <= arith_value(ariths, b, moment),
        TestNode::Equal(a, b) => arith_value(ariths, a, moment) == arith_value(ariths, b, moment),
        TestNode::Both(a, b) => {
            test_holds(ariths, before, a, moment) & test_holds(ariths, before, b, moment)
        }
        TestNode::Either(a, b) => {
            test_holds(ariths, before, a, moment) | test_holds(ariths, before, b, moment)
        }
        TestNode::NotBoth(a, b) => {
            !(test_holds(ariths, before, a, moment) & test_holds(ariths, before, b, moment))
        }
    }
}
