// Reading a program from its text.
ghost use Rattle.std.specs.Prelude.{MatchResult};
ghost use Rattle.program.specs.Answered.{Answered, Faultless, Refused};

use crate::assembly::assemble;
use crate::header::Header;
use crate::room::Room;
use crate::whole::whole;
use machine::Program;
use model::{Layer, Refusal};
use text::Fault;

// The program of a text, in memory that was reserved before; or the text's first fault.
fn program(room: Room, text: &[u8]) -> Result<Program, Fault>
    ensures { MatchResult result (Faultless text.now) (λ f. Refused text.now (record { layer = Layer.Program; cause = f.cause; place = f.place })) }
{
    let Room {
        mut words,
        mut board,
        statements,
    } = room;
    words.cut(text)?;
    let mut header = Header::new();
    whole(words.list(), text.len(), &mut header, &mut board)?;
    Ok(assemble(&header, board, statements))
}

// The program of a text, in memory that was reserved before; or the refusal with the text's first fault. Nothing is allocated.
pub fn read(room: Room, text: &[u8]) -> Result<Program, Refusal>
    ensures { Answered text.now result }
{
    program(room, text).map_err(|fault| fault.refused(Layer::Program))
}
