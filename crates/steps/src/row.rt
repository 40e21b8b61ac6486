// What a step table is made of: its rows, and the arcs between them.
ghost use Rattle.std.specs.Prelude.{◌≡◌, int_le, pos, negsuc};
ghost use Rattle.steps.specs.Tables.{proper_row};

use model::Reading;

// One state: its label, its six values, and whether a run may start in it. The row's number is the state's code.
#[derive(Clone, Copy, Debug, PartialEq, Eq)]
pub struct Row {
    pub label: u8,
    pub values: [i16; 6],
    pub start: bool,
}

impl Row {
    // What the row tells of its state.
    pub(crate) fn reading(&self) -> Reading
        ensures { result ≡ record { label = self.now.label; values = self.now.values } }
    {
        Reading {
            label: self.label,
            values: self.values,
        }
    }

    // Whether label and values are within the limits of a cell.
    pub(crate) fn is_proper(&self) -> bool
        ensures { result ≡ proper_row self.now }
    {
        self.label < 64
            && self
                .values
                .iter()
                .all(|value| (-1000..=1000).contains(value))
    }
}

// A step between two rows, by their numbers.
#[derive(Clone, Copy, Debug, PartialEq, Eq)]
pub struct Arc {
    pub from: u16,
    pub to: u16,
}
