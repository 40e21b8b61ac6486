// The memory that reading a program takes, reserved before the text is read.
ghost use Rattle.std.specs.Prelude.{◌≡◌, ◌≤◌, vec_len, vec_capacity};

use crate::board::Board;
use lexing::Words;
use machine::Statement;

#[derive(Drop)]
pub struct Room {
    pub(crate) words: Words,
    pub(crate) board: Board,
    pub(crate) statements: Vec<Statement>,
    ghost no_drafts: { vec_len board.drafts ≡ 0 },
    ghost no_words: { board.expressions.counted ≡ 0 },
    ghost statement_room: { 63 ≤ vec_capacity statements },
    ghost no_statements: { vec_len statements ≡ 0 },
}
