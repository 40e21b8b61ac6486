// A program as a cell: states by their codes, and their next states.
ghost use Rattle.std.specs.Prelude.{◌≡◌, ◌≤◌, length};
ghost use Rattle.model.specs.Cells.{at, Observed};
ghost use Rattle.traces.specs.Codes.{code as coded};
ghost use Rattle.traces.specs.Tables.{next_states};
ghost use Rattle.traces.proofs.Packing.{Fits};
ghost use Rattle.machine.specs.Cells.{cell_of, instructions, state_in, outcome_in, ways_of};

use crate::codes::{count, pack, start, unpack};
use crate::program::Program;
use crate::statement::Statement;
use model::{Cell, Reading};

// What a label counts in a code: 2^36.
const SPAN: u64 = 1 << 36;

impl Program {
    // The state that a code stands for.
    fn state(&self, code: u64) -> Option<Reading>
        ensures { result ≡ state_in self.now code }
    {
        let label = code / SPAN;
        if label > self.statements.len() as u64 {
            return None;
        }
        let values = unpack(&self.ranges, code % SPAN)?;
        Some(Reading {
            label: label as u8,
            values,
        })
    }

    // The code of a state.
    fn encode(&self, state: &Reading) -> u64
        requires { Fits self.now.ranges state.now.values }
        ensures { result ≡ coded self.now.ranges state.now }
    {
        u64::from(state.label) * SPAN + pack(&self.ranges, &state.values)
    }

    // The next state of a state at a place.
    fn outcome(&self, state: &Reading, place: usize) -> Option<Reading>
        ensures { result ≡ outcome_in self.now state.now place }
    {
        let statement = self.statements.get(usize::from(state.label))?;
        self.perform(*statement, state, place)
    }

    // How many next states a state has.
    fn outcome_count(&self, state: &Reading) -> usize
        ensures { result ≡ length (next_states self.now.ranges (instructions self.now) state.now) }
    {
        self.statements
            .get(usize::from(state.label))
            .map_or(0, |statement| self.ways(*statement))
    }

    // How many next states a statement leads to.
    fn ways(&self, statement: Statement) -> usize
        ensures { result ≡ ways_of self.now.ranges statement }
    {
        match statement {
            Statement::Sense { register, .. } => self.range(register).width() as usize + 1,
            Statement::Set { .. } | Statement::Go { .. } | Statement::Branch { .. } => 1,
        }
    }
}

// A program is the cell whose runs are its prefix traces.
impl Cell for Program {
    ghost cell = { cell_of };

    fn start_count(&self) -> usize {
        count(&self.ranges)
    }

    fn start_at(&self, place: usize) -> Option<u64> {
        (place < count(&self.ranges)).then(|| start(&self.ranges, place))
    }

    fn next_count(&self, code: u64) -> usize {
        self.state(code)
            .map_or(0, |state| self.outcome_count(&state))
    }

    fn next_at(&self, code: u64, place: usize) -> Option<u64> {
        let state = self.state(code)?;
        let next = self.outcome(&state, place)?;
        Some(self.encode(&next))
    }

    fn observe(&self, code: u64, reading: &mut Reading) -> bool {
        let Some(state) = self.state(code) else {
            return false;
        };
        *reading = state;
        true
    }
}
