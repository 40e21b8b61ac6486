// Putting a program together from what has been read.
ghost use Rattle.std.specs.Prelude.{◌≡◌, ◌≤◌, vec_len, vec_capacity};
ghost use Rattle.traces.specs.Programs.{Part};
ghost use Rattle.program.specs.Wholes.{Stand, Assembled};

use crate::board::Board;
use crate::header::Header;
use crate::link::link;
use machine::{Program, Statement};

// The program with the declared ranges and the statements of the drafts, into an empty vector with room for them.
pub(crate) fn assemble(header: &Header, board: Board, mut statements: Vec<Statement>) -> Program
    requires { ((body : Part) × Stand board body) × (63 ≤ vec_capacity statements) × (vec_len statements ≡ 0) }
    ensures { Assembled header.now board result }
{
    let Board {
        drafts,
        expressions,
    } = board;
    link(drafts.as_slice(), &mut statements);
    Program {
        ranges: header.full(),
        statements,
        expressions,
    }
}
