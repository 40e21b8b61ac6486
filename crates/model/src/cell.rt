// A cell: a finite transition system, by the lists of codes that it hands out one at a time.
ghost use Rattle.std.specs.Prelude.{◌≡◌, true, length, if◌then◌else◌, Some, None};
ghost use Rattle.model.specs.Cells.{CellMeaning, at, Observed};

use crate::moment::Reading;

pub trait Cell {
    ghost cell: { Self → CellMeaning };

    // How many start codes there are.
    fn start_count(&self) -> usize
        ensures { result ≡ length (cell self.now).starts };

    // The start code at a place, none past the end.
    fn start_at(&self, place: usize) -> Option<u64>
        ensures { result ≡ at (cell self.now).starts place };

    // How many next codes a code has: none where it is no state.
    fn next_count(&self, code: u64) -> usize
        ensures { result ≡ length ((cell self.now).nexts code) };

    // The next code of a code at a place, none past the end.
    fn next_at(&self, code: u64, place: usize) -> Option<u64>
        ensures { result ≡ at ((cell self.now).nexts code) place };

    // A state's label and values into the caller's record; for no state the answer is no, and the record as it was. Not an
    // Option: the record is the caller's own, by rule, and `read` makes an Option of it.
    fn observe(&self, code: u64, reading: &mut Reading) -> bool
        ensures { Observed (cell self.now) code reading.old reading.new result };
}

// A state's label and values, none for a code that is no state.
pub fn read<C: Cell>(cell: &C, code: u64) -> Option<Reading>
    ensures { result ≡ (if (C.Cell.cell cell.now).state code then Some ((C.Cell.cell cell.now).reads code) else None) }
{
    let mut reading = Reading {
        label: 0,
        values: [0; 6],
    };
    cell.observe(code, &mut reading).then_some(reading)
}

// A state's label and values; free for a code that is no state.
pub fn reading<C: Cell>(cell: &C, code: u64) -> Reading
    ensures { (C.Cell.cell cell.now).state code ≡ true → result ≡ (C.Cell.cell cell.now).reads code }
{
    read(cell, code).unwrap_or(Reading {
        label: 0,
        values: [0; 6],
    })
}
