// The run that a fail shows: the codes that lead to the code that settled the check.
ghost use Rattle.std.specs.Prelude.{◌≡◌, ℕ, ◌<◌, length, if◌then◌else◌, nat_lt, slice_index, slice_set};
ghost use Rattle.checking.specs.Showing.{back_at, whole, ShownAt, ShownAll};
ghost use Rattle.levels.specs.Units.{from_at, last_at, trail};

use crate::phase::Phase;
use crate::state::Check;
use model::{Cause, Configuration, Key, Layer, Refusal};
use store::Record;

// The place that the record at a place was reached from, 0 past the table's end.
// Here and in `last` no Option would be plainer: a run never leads past the end, and its definition reads 0 there.
fn from<S: Key>(table: &[Record<Configuration<S>>], place: u32) -> u32
    ensures { result ≡ from_at (whole table.now) place }
{
    table.get(place as usize).map_or(0, |record| record.from)
}

// The last code of the configuration at a place, 0 past the table's end.
fn last<S: Key>(table: &[Record<Configuration<S>>], place: u32) -> u64
    ensures { result ≡ last_at (whole table.now) place }
{
    table
        .get(place as usize)
        .map_or(0, |record| record.key.last)
}

// The place that comes so many steps before another.
fn back<S: Key>(table: &[Record<Configuration<S>>], place: u32, steps: u32) -> u32
    ensures { result ≡ back_at (whole table.now) steps place }
{
    let mut at = place;
    for _step in 0..steps {
        at = from(table, at);
    }
    at
}

impl Check {
    // The code at a place of the shown run, counted from 0.
    pub fn shown_state<S: Key>(
        &self,
        table: &[Record<Configuration<S>>],
        place: usize,
    ) -> Result<u64, Refusal>
        ensures { ShownAt self.now table.now place result }
    {
        self.fits(table.len())?;
        let Phase::Failing {
            before,
            place: end,
            code,
        } = self.phase
        else {
            return Err(Refusal::new(Layer::Check, Cause::NoRun, 0));
        };
        let count = before as usize;
        if place > count {
            return Err(Refusal::new(Layer::Check, Cause::Beyond, place));
        }
        if place == count {
            return Ok(code);
        }
        let steps = before - 1 - place as u32;
        Ok(last(table, back(table, end, steps)))
    }

    // The whole shown run, from the front of the buffer on, as much of it as there is room for, in time that grows with
    // its length alone; answers its length.
    pub fn shown_run<S: Key>(
        &self,
        table: &[Record<Configuration<S>>],
        out: &mut [u64],
    ) -> Result<usize, Refusal>
        ensures { ShownAll self.now table.now out.old out.new result }
    {
        self.fits(table.len())?;
        // As in `shown_state`, whose form stays.
        let Phase::Failing {
            before,
            place,
            code,
        } = self.phase
        else {
            return Err(Refusal::new(Layer::Check, Cause::NoRun, 0));
        };
        put(out, before, code);
        hand_out(table, place, before, out);
        Ok(before as usize + 1)
    }
}

// A code at a place of the buffer, if it has the place.
fn put(out: &mut [u64], place: u32, code: u64)
    ensures { out.new ≡ slice_set out.old place code }
{
    let place = place as usize;
    // By its index: after a write through `get_mut` nothing is known of the other places, so the proof doesn't close.
    if place < out.len() {
        out[place] = code;
    }
}

// The last codes of the configuration at a place and of those it was reached from, before the place `end` of the
// buffer.
fn hand_out<S: Key>(table: &[Record<Configuration<S>>], place: u32, end: u32, out: &mut [u64])
    ensures { (j : ℕ) → j < length out.new → slice_index out.new j ≡ (if nat_lt j end then slice_index (trail (whole table.now) end place) j else slice_index out.old j) }
{
    let mut at = place;
    for left in (0..end).rev() {
        put(out, left, last(table, at));
        at = from(table, at);
    }
}
