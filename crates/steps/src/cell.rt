// A step table as a cell: each question is answered from one place of the table or of its index.
ghost use Rattle.std.specs.Prelude.{◌≡◌};
ghost use Rattle.steps.specs.Meaning.{table_cell};
ghost use Rattle.steps.specs.Tables.{nexts_of, starts_from};

use crate::table::StepTable;
use model::{Cell, Reading};

impl<'a> StepTable<'a> {
    // The start codes.
    fn starts(&self) -> &[u8]
        ensures { result.now ≡ starts_from 0 self.now.rows.now }
    {
        self.index.starts.as_slice()
    }

    // The next codes of a code: none where it is no row.
    fn nexts(&self, code: u64) -> &[u8]
        ensures { result.now ≡ nexts_of self.now.arcs.now code }
    {
        self.index
            .nexts
            .get(code as usize)
            .map_or(&[], |nexts| nexts.as_slice())
    }
}

impl<'a> Cell for StepTable<'a> {
    ghost cell = { λ t. table_cell t.rows.now t.arcs.now t.fit };

    fn start_count(&self) -> usize {
        self.starts().len()
    }

    fn start_at(&self, place: usize) -> Option<u64> {
        self.starts().get(place).map(|code| u64::from(*code))
    }

    fn next_count(&self, code: u64) -> usize {
        self.nexts(code).len()
    }

    fn next_at(&self, code: u64, place: usize) -> Option<u64> {
        self.nexts(code).get(place).map(|code| u64::from(*code))
    }

    #[tactic(auto, using(crate::proofs::Asking::reading_is))]
    fn observe(&self, code: u64, reading: &mut Reading) -> bool {
        let Some(row) = self.rows.get(code as usize) else {
            return false;
        };
        *reading = row.reading();
        true
    }
}
