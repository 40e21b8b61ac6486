// Reading a sheet from its text.
ghost use Rattle.std.specs.Prelude.{MatchResult};
ghost use Rattle.sheet.specs.Answered.{Answered, Faultless, refused};

use crate::descent::whole;
use crate::finish::finished;
use crate::room::Room;
use crate::sheet::Sheet;
use model::{Layer, Refusal};
use text::Fault;

// The sheet of a text, or the text's first fault.
fn sheet_of(room: Room, text: &[u8]) -> Result<Sheet, Fault>
    ensures { MatchResult result (Faultless text.now) (λ f. Answered text.now (Err (refused f))) }
{
    let Room {
        mut words,
        mut draft,
        automaton,
    } = room;
    words.cut(text)?;
    whole(words.list(), text.len(), &mut draft)?;
    Ok(finished(draft, automaton))
}

// The sheet of a text, in memory that was reserved before; or the text's first fault. Nothing is allocated.
pub fn read(room: Room, text: &[u8]) -> Result<Sheet, Refusal>
    ensures { Answered text.now result }
{
    sheet_of(room, text).map_err(|fault| fault.refused(Layer::Sheet))
}
