// The walk through a cell, breadth first: the table is the queue, and the set of the codes met.
ghost use Rattle.std.specs.Prelude.{◌<◌, [], length};
ghost use Rattle.model.specs.Cells.{at};
ghost use Rattle.model.specs.Keys.{code_key};
ghost use Rattle.store.specs.Chains.{Indexed};
ghost use Rattle.store.specs.Entries.{entries};
ghost use Rattle.survey.specs.Held.{KeptSo, WalkedSo};
ghost use Rattle.survey.specs.Order.{gather, visit};

use model::Cell;
use store::{NoPlace, Record, keep};

// Meets the starts, each reached from its own place. Answers how many codes are stored then.
// Cell and table stay two parameters: the caller lends both for one call, and a struct would only lend them again.
fn keep_starts<C: Cell>(cell: &C, table: &mut [Record<u64>]) -> Result<u32, NoPlace>
    ensures { KeptSo table.old table.new (gather length (C.Cell.cell cell.now).starts []) result }
{
    let mut stored = 0;
    // By place, as a cell hands its codes out: a loop over a chain of them gets no proof.
    for place in 0..cell.start_count() {
        if let Some(code) = cell.start_at(place) {
            stored = keep(table, stored, code, stored)?;
        }
    }
    Ok(stored)
}

// Meets the next codes of the code at a place. Answers how many codes are stored then.
fn keep_nexts<C: Cell>(
    cell: &C,
    table: &mut [Record<u64>],
    stored: u32,
    from: u32,
) -> Result<u32, NoPlace>
    requires from { from < stored }
    requires indexed { Indexed code_key table.old stored }
    ensures { KeptSo table.old table.new (visit (C.Cell.cell cell.now) from (entries table.old stored) (at (entries table.old stored) from)) result }
{
    let code = table[from as usize].key;
    let mut total = stored;
    // By place, as a cell hands its codes out: a loop over a chain of them gets no proof.
    for place in 0..cell.next_count(code) {
        if let Some(next) = cell.next_at(code, place) {
            total = keep(table, total, next, from)?;
        }
    }
    Ok(total)
}

// Goes through the codes in the order of storing until none is left. Answers how many there are.
pub(crate) fn walk<C: Cell>(cell: &C, table: &mut [Record<u64>]) -> Result<u32, NoPlace>
    ensures { WalkedSo (C.Cell.cell cell.now) table.old table.new result }
{
    let starts = keep_starts(cell, table)?;
    let mut stored = starts;
    let mut place = 0;
    // The place is counted by hand: the codes still to come grow in number while they are gone through.
    while place < stored {
        stored = keep_nexts(cell, table, stored, place)?;
        place += 1;
    }
    Ok(stored)
}
