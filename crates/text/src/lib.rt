// The words of texts, and the arithmetic and boolean expressions that programs, sheets and monitors share.
#![tactic(auto)]

mod arith;
mod boolean;
mod expressions;
mod node;
mod operator;
mod pool;
mod reading;
mod word;

pub use arith::{LARGEST_NUMBER, sum};
pub use boolean::condition;
pub use expressions::Expressions;
pub use node::{ArithNode, TestNode};
pub use reading::{Fault, Limits, Read, expect, first, next, sign, skip, unexpected};
pub use word::{Kind, Register, Scope, Token, Word};
