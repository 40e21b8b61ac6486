// A cycle program that has been read: ranges, statements in label order, and expressions.
ghost use Rattle.std.specs.Prelude.{◌≡◌, true};
ghost use Rattle.traces.specs.Codes.{sound};
ghost use Rattle.machine.specs.Trees.{ariths_of, tests_of};
ghost use Rattle.machine.specs.Views.{views, all_stand};

use crate::statement::Statement;
use text::Expressions;
use traces::Range;

// An undeclared register has the range 0 to 0.
#[derive(Drop)]
pub struct Program {
    pub ranges: [Range; 6],
    pub statements: Vec<Statement>,
    pub expressions: Expressions,
    ghost is: { sound ranges (views (ariths_of expressions) (tests_of expressions) statements.items) ≡ true },
    ghost whole: { all_stand (ariths_of expressions) (tests_of expressions) statements.items ≡ true },
}
