// One unit of work: the level's next configuration is looked at, or extended.
ghost use Rattle.std.specs.Prelude.{◌≡◌, ℕ, ◌+◌, []};
ghost use Rattle.checking.specs.Standing.{phase_of, place_of, Met, Adds, Goes, Countable, advanced, Stands};

use crate::phase::Phase;
use crate::product::Product;
use crate::state::Check;
use model::{Cell, Configuration, Key, Watch, reading};
use store::{NoPlace, Record, keep};

// That a phase's numbers can be counted further is no invariant: `advance` does count, and only the table bounds that.
impl Check {
    // What a next code does, by the phase that the check is in and by what the code turned up.
    fn meet<S: Key>(
        &mut self,
        table: &mut [Record<Configuration<S>>],
        turned: Option<Configuration<S>>,
        code: u64,
    )
        ensures met { Met S.Key.kind code turned (phase_of self.old.phase) (phase_of self.new.phase) self.old.stored self.new.stored table.old table.new }
        ensures places { self.new.places ≡ self.old.places }
        ensures counts { Countable self.old.phase → Countable self.new.phase }
    {
        match (&mut self.phase, turned) {
            (Phase::Looking { level, next, .. }, None) => {
                let before = *level;
                let place = *next;
                self.phase = Phase::Failing {
                    before,
                    place,
                    code,
                };
            }
            (Phase::Extending { next, .. }, Some(key)) => match keep(
                table,
                self.stored,
                key,
                *next,
            ) {
                Ok(stored) => self.stored = stored,
                Err(NoPlace) => self.phase = Phase::Filled,
            },
            _ => {}
        }
    }

    // Takes the next codes of a configuration in order. Once a code settles the check, the others change nothing.
    fn through<C: Cell, W: Watch>(
        &mut self,
        product: &Product<C, W>,
        table: &mut [Record<Configuration<W::State>>],
        key: &Configuration<W::State>,
    )
        ensures adds { Adds self.old self.new table.old table.new }
        ensures goes { Goes (C.Cell.cell product.now.cell.now) (W.Watch.watch product.now.watch.now) W.State.Key.kind key.now ((C.Cell.cell product.now.cell.now).nexts key.now.last) [] self.old self.new table.old table.new }
        ensures counts { Countable self.old.phase → Countable self.new.phase }
    {
        // By `reading`: where another hand wrote to the table and the first code is no state, its values are 0, and the next
        // codes are looked at all the same.
        let start = reading(product.cell, key.first);
        // By place, as a cell hands its codes out: a loop over a chain of them gets no proof.
        for place in 0..product.cell.next_count(key.last) {
            if let Some(code) = product.cell.next_at(key.last, place) {
                let turned = product.onward(key.first, &start, &key.state, code);
                self.meet(table, turned, code);
            }
        }
    }

    // After the last next code: on to the next place, to extending the level, to the next level, or to a pass.
    fn advance(&mut self)
        ensures kept { (self.new.places ≡ self.old.places) × (self.new.stored ≡ self.old.stored) }
        ensures phase { Countable self.old.phase → phase_of self.new.phase ≡ advanced (phase_of self.old.phase) self.old.stored }
    {
        match self.phase {
            Phase::Looking { level, low, next } => {
                let next = next.saturating_add(1);
                self.phase = if next < self.stored {
                    Phase::Looking { level, low, next }
                } else {
                    Phase::Extending {
                        level,
                        end: self.stored,
                        next: low,
                    }
                };
            }
            Phase::Extending { level, end, next } => {
                let next = next.saturating_add(1);
                self.phase = if next < end {
                    Phase::Extending { level, end, next }
                } else if self.stored == end {
                    Phase::Passing
                } else {
                    Phase::Looking {
                        level: level.saturating_add(1),
                        low: end,
                        next: end,
                    }
                };
            }
            _ => {}
        }
    }

    // The place whose configuration comes next, none once the check is settled.
    pub(crate) fn place(&self) -> Option<u32>
        ensures { result ≡ place_of (phase_of self.now.phase) }
    {
        match self.phase {
            Phase::Looking { next, .. } | Phase::Extending { next, .. } => Some(next),
            _ => None,
        }
    }

    // One unit of work. A settled check is left as it is, and so is one whose table does not hold its places.
    pub(crate) fn unit<C: Cell, W: Watch>(
        &mut self,
        product: &Product<C, W>,
        table: &mut [Record<Configuration<W::State>>],
    )
        ensures adds { Adds self.old self.new table.old table.new }
        ensures stands { (u : ℕ) → Stands (C.Cell.cell product.now.cell.now) (W.Watch.watch product.now.watch.now) W.State.Key.kind u self.old table.old → Stands (C.Cell.cell product.now.cell.now) (W.Watch.watch product.now.watch.now) W.State.Key.kind (u + 1) self.new table.new }
    {
        let Some(place) = self.place() else {
            return;
        };
        let Some(record) = table.get(place as usize) else {
            return;
        };
        let key = record.key;
        self.through(product, table, &key);
        self.advance();
    }
}
