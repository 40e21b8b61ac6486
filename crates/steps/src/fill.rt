// Filling a step table: rows and arcs are tested, and their index is made.
ghost use Rattle.steps.specs.Calls.{FilledSo};

use crate::counted::Counted;
use crate::row::{Arc, Row};
use crate::table::{Index, StepTable, no_nexts};
use model::Refusal;

impl<'a> StepTable<'a> {
    // Takes rows and arcs in place of those before; a refusal leaves the table as it was.
    // The index is made here and moved once: each call that handed it on would copy it, and it is most of what a fill costs.
    pub fn fill(&mut self, rows: &'a [Row], arcs: &'a [Arc]) -> Result<(), Refusal>
        ensures { FilledSo rows.now arcs.now self.old self.new result }
    {
        let counted = Counted::new(rows, arcs)?;
        counted.check_rows()?;
        let mut index = Index {
            starts: counted.starts(),
            nexts: no_nexts(),
        };
        counted.file(&mut index.nexts)?;
        self.rows = rows;
        self.arcs = arcs;
        self.index = index;
        Ok(())
    }
}
