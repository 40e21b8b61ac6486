// Reserving the room for a program.
ghost use Rattle.std.specs.Prelude.{◌≡◌, [], IfOk};

use crate::board::Board;
use crate::boards::MOST_STATEMENTS;
use crate::room::Room;
use lexing::Words;
use std::alloc::{AllocError, Global};
use text::Expressions;

impl Room {
    // Room for any program that may be read, or none for want of memory.
    pub fn reserve(heap: Global) -> Result<Room, AllocError>
        ensures { IfOk result (λ x. (x.words.list.items ≡ []) × (x.board.drafts.items ≡ []) × (x.statements.items ≡ []) × (x.board.expressions.ariths.items ≡ []) × (x.board.expressions.tests.items ≡ [])) }
    {
        let words = Words::reserve(heap)?;
        let expressions = Expressions::reserve(heap)?;
        let drafts = Vec::with_capacity(heap, MOST_STATEMENTS)?;
        let statements = Vec::with_capacity(heap, MOST_STATEMENTS)?;
        Ok(Room {
            words,
            board: Board {
                drafts,
                expressions,
            },
            statements,
        })
    }
}
