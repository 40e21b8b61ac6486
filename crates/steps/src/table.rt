// A step table: the rows and arcs that it was filled with, and an index of them.
ghost use Rattle.std.specs.Prelude.{◌≡◌, true, []};
ghost use Rattle.steps.specs.Tables.{proper};
ghost use Rattle.steps.specs.Index.{Begun, Filed};

use crate::row::{Arc, Row};
use crate::short::Short;
use std::array;

// A table has at most so many rows, and at most so many arcs leave each.
pub(crate) const ROWS: usize = 256;

const SLOTS: usize = 64;

// For each row, where its arcs lead.
pub(crate) type Nexts = [Short<SLOTS>; ROWS];

// The start rows in their order, and for each row where its arcs lead, in arc order, so that no question walks over
// rows or arcs.
#[derive(Drop)]
pub(crate) struct Index {
    pub(crate) starts: Short<ROWS>,
    pub(crate) nexts: Nexts,
}

// The rows and arcs stay the caller's.
#[derive(Drop)]
pub struct StepTable<'a> {
    pub(crate) rows: &'a [Row],
    pub(crate) arcs: &'a [Arc],
    pub(crate) index: Index,
    ghost fit: { proper rows.now arcs.now ≡ true },
    ghost begun: { Begun rows.now index.starts },
    ghost filed: { Filed arcs.now index.nexts },
}

impl<'a> StepTable<'a> {
    // A table with no rows.
    pub fn new() -> StepTable<'a>
        ensures rows { result.rows.now ≡ [] }
        ensures arcs { result.arcs.now ≡ [] }
    {
        StepTable {
            rows: &[],
            arcs: &[],
            index: Index {
                starts: Short::new(),
                nexts: no_nexts(),
            },
        }
    }
}

// No next codes for any row.
pub(crate) fn no_nexts() -> Nexts
    ensures { Filed [] result }
{
    array::from_fn(|_| Short::new())
}
