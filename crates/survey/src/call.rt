// The survey of a cell in the caller's table.
ghost use Rattle.survey.specs.Calls.{SurveyedSo};

use crate::mark::marked;
use crate::walk::walk;
use model::{Cause, Cell, Layer, Refusal};
use store::{MOST_PLACES, Record};

// What runs come to: how many codes, all of them in the table, and for each label whether some run comes to it.
#[derive(Clone, Copy, Debug, PartialEq, Eq)]
pub struct Reached {
    pub codes: usize,
    pub labels: [bool; 64],
}

// Stores the codes that runs of the cell come to, in the order in which they are first met, and marks their labels.
// There is no survey where runs come to more codes than the table has places.
pub fn survey<C: Cell>(cell: &C, table: &mut [Record<u64>]) -> Result<Option<Reached>, Refusal>
    ensures { SurveyedSo (C.Cell.cell cell.now) table.old table.new result }
{
    if table.len() > MOST_PLACES {
        return Err(Refusal::new(Layer::Check, Cause::Large, table.len()));
    }
    // With `ok` and `map` the steps below would stand in a closure inside `Ok( )`, which is no plainer.
    let Ok(codes) = walk(cell, table) else {
        return Ok(None);
    };
    let codes = codes as usize;
    let labels = marked(cell, &table[..codes]);
    Ok(Some(Reached { codes, labels }))
}
