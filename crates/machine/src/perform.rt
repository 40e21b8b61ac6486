// What a statement does to a state.
ghost use Rattle.std.specs.Prelude.{◌≡◌, true, [], ◌∷◌, if◌then◌else◌, slice_set};
ghost use Rattle.model.specs.Cells.{at};
ghost use Rattle.text.specs.Words.{register_index};
ghost use Rattle.text.specs.Expressions.{value as means, holds as true_of};
ghost use Rattle.traces.specs.Traces.{◌▹◌, range_at, seen, stored};
ghost use Rattle.traces.specs.Tables.{outcomes};
ghost use Rattle.machine.specs.Cells.{viewed, stands_in, tree_in, test_in, arith_in_stands, test_in_stands, sensed};

use crate::codes::value;
use crate::program::Program;
use crate::statement::Statement;
use model::{Moment, Reading};
use text::Register;
use traces::Range;
use values::{holds, value as evaluate};

impl Program {
    // The state at a place among those that a statement leads to.
    pub(crate) fn perform(
        &self,
        statement: Statement,
        state: &Reading,
        place: usize,
    ) -> Option<Reading>
        requires { stands_in self.now statement ≡ true }
        ensures { result ≡ at (outcomes self.now.ranges (viewed self.now statement) state.now.values) place }
    {
        match statement {
            Statement::Set {
                register,
                value,
                next,
            } => only(self.set(register, value, next, state), place),
            Statement::Sense { register, next } => self.sense(register, next, state, place),
            Statement::Go { next } => only(
                Reading {
                    label: next,
                    values: state.values,
                },
                place,
            ),
            Statement::Branch { test, yes, no } => only(self.branch(test, yes, no, state), place),
        }
    }

    // The range of a register.
    pub(crate) fn range(&self, register: Register) -> Range
        ensures { result ≡ range_at self.now.ranges (register_index register) }
    {
        self.ranges[register.index()]
    }

    // The state after a set.
    fn set(&self, register: Register, value: usize, next: u8, state: &Reading) -> Reading
        requires { arith_in_stands self.now value ≡ true }
        ensures { result ≡ next ▹ stored self.now.ranges state.now.values (register_index register) (means (seen state.now.values) (tree_in self.now value)) }
    {
        let result = evaluate(&self.expressions, value, &moment(state));
        changed(state, register, self.range(register).keep(result), next)
    }

    // The state after a sense at a place: the range's value there.
    fn sense(&self, register: Register, next: u8, state: &Reading, place: usize) -> Option<Reading>
        ensures { result ≡ at (sensed self.now (register_index register) next state.now) place }
    {
        let range = self.range(register);
        (place as u64 <= range.width()).then(|| changed(
            state,
            register,
            value(&range, place as u64),
            next,
        ))
    }

    // The state after a test.
    fn branch(&self, test: usize, yes: u8, no: u8, state: &Reading) -> Reading
        requires { test_in_stands self.now test ≡ true }
        ensures { result ≡ (if true_of (seen state.now.values) (test_in self.now test) then yes else no) ▹ state.now.values }
    {
        let holds = holds(&self.expressions, test, &moment(state));
        Reading {
            label: if holds { yes } else { no },
            values: state.values,
        }
    }
}

// The state at the next label, with another value in a register.
fn changed(state: &Reading, register: Register, value: i16, next: u8) -> Reading
    ensures { result ≡ next ▹ slice_set state.now.values (register_index register) value }
{
    let mut values = state.values;
    values[register.index()] = value;
    Reading {
        label: next,
        values,
    }
}

// What an expression of a program sees in a state.
fn moment(state: &Reading) -> Moment
    ensures { result ≡ seen state.now.values }
{
    Moment {
        label: 0,
        values: state.values,
        starts: state.values,
    }
}

// The only state, at place 0.
fn only(state: Reading, place: usize) -> Option<Reading>
    ensures { result ≡ at (state ∷ []) place }
{
    (place == 0).then_some(state)
}
