// Marking the labels of stored codes.
ghost use Rattle.std.specs.Prelude.{map};
ghost use Rattle.store.specs.Entries.{entry, keys};
ghost use Rattle.survey.specs.Held.{Marked};

use model::{Cell, read};
use store::Record;

// For each label whether one of the stored codes has it.
pub(crate) fn marked<C: Cell>(cell: &C, stored: &[Record<u64>]) -> [bool; 64]
    ensures { Marked (C.Cell.cell cell.now) (keys (map entry stored.now)) result }
{
    let mut labels = [false; 64];
    for record in stored {
        if let Some(reading) = read(cell, record.key) {
            labels[reading.label as usize] = true;
        }
    }
    labels
}
