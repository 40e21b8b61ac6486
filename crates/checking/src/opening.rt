// Opening a check: all starts are looked at, and then their configurations are stored as level 1.
ghost use Rattle.std.specs.Prelude.{◌≡◌, ◌≤◌, length, drop, is_err, if◌then◌else◌, nat_eq};
ghost use Rattle.checking.specs.Opening.{StartSo, StartsSo, Opens, Restarts};
ghost use Rattle.checking.specs.Standing.{phase_of, Stands};
ghost use Rattle.levels.specs.Units.{looking, passing, filled};

use crate::phase::Phase;
use crate::product::Product;
use crate::state::Check;
use model::{Answer, Cause, Cell, Configuration, Layer, Refusal, Watch};
use store::{MOST_PLACES, NoPlace, Record, keep};

// The phase after the starts are stored: with no starts it is a pass.
fn first_phase(stored: u32, kept: Result<(), NoPlace>) -> Phase
    ensures { phase_of result ≡ (if is_err kept then filled else (if nat_eq stored 0 then passing else looking 1 0 0)) }
{
    match kept {
        Err(NoPlace) => Phase::Filled,
        Ok(()) if stored == 0 => Phase::Passing,
        Ok(()) => Phase::Looking {
            level: 1,
            low: 0,
            next: 0,
        },
    }
}

impl Check {
    // Stores the configuration of a start, reached from its own place.
    fn store_start<C: Cell, W: Watch>(
        &mut self,
        product: &Product<C, W>,
        table: &mut [Record<Configuration<W::State>>],
        code: u64,
    ) -> Result<(), NoPlace>
        ensures places { self.new.places ≡ self.old.places }
        ensures stores { StartSo (C.Cell.cell product.now.cell.now) (W.Watch.watch product.now.watch.now) W.State.Key.kind code table.old table.new self.old.stored self.new.stored result }
    {
        if let Some(key) = product.start(code) {
            self.stored = keep(table, self.stored, key, self.stored)?;
        }
        Ok(())
    }

    // Stores the configurations of the starts in their order, in a table where none is stored yet.
    fn store_starts<C: Cell, W: Watch>(
        &mut self,
        product: &Product<C, W>,
        table: &mut [Record<Configuration<W::State>>],
    ) -> Result<(), NoPlace>
        ensures places { self.new.places ≡ self.old.places }
        ensures stores { self.old.stored ≡ 0 → StartsSo (C.Cell.cell product.now.cell.now) (W.Watch.watch product.now.watch.now) W.State.Key.kind table.old table.new self.new.stored result }
    {
        // By place, as a cell hands its codes out: a loop over a chain of them gets no proof.
        for place in 0..product.cell.start_count() {
            if let Some(code) = product.cell.start_at(place) {
                self.store_start(product, table, code)?;
            }
        }
        Ok(())
    }

    // Puts the check at its beginning in a table of as many places as it was opened for.
    fn begin<C: Cell, W: Watch>(
        &mut self,
        product: &Product<C, W>,
        table: &mut [Record<Configuration<W::State>>],
    )
        ensures places { self.new.places ≡ self.old.places }
        ensures begun { self.old.places ≡ length table.old → length table.old ≤ 1000000 → Stands (C.Cell.cell product.now.cell.now) (W.Watch.watch product.now.watch.now) W.State.Key.kind 0 self.new table.new }
        ensures beyond { drop self.new.stored table.new ≡ drop self.new.stored table.old }
    {
        self.stored = 0;
        if let Some(code) = product.unpermitted_start() {
            self.phase = Phase::Failing {
                before: 0,
                place: 0,
                code,
            };
            return;
        }
        let kept = self.store_starts(product, table);
        self.phase = first_phase(self.stored, kept);
    }

    // Opens a check of every run of the cell against the watch, in a table of at most 1,000,000 places.
    pub fn open<C: Cell, W: Watch>(
        cell: &C,
        watch: &W,
        table: &mut [Record<Configuration<W::State>>],
    ) -> Result<(Check, Answer), Refusal>
        ensures { Opens (C.Cell.cell cell.now) (W.Watch.watch watch.now) W.State.Key.kind table.old table.new result }
    {
        let places = table.len();
        if places > MOST_PLACES {
            return Err(Refusal::new(Layer::Check, Cause::Large, places));
        }
        let mut check = Check {
            places,
            stored: 0,
            phase: Phase::Passing,
        };
        check.begin(&Product { cell, watch }, table);
        let answer = check.verdict();
        Ok((check, answer))
    }

    // Opens the check again, in a table of as many places.
    pub fn restart<C: Cell, W: Watch>(
        &mut self,
        cell: &C,
        watch: &W,
        table: &mut [Record<Configuration<W::State>>],
    ) -> Result<Answer, Refusal>
        ensures { Restarts (C.Cell.cell cell.now) (W.Watch.watch watch.now) W.State.Key.kind self.old self.new table.old table.new result }
    {
        self.fits(table.len())?;
        self.begin(&Product { cell, watch }, table);
        Ok(self.verdict())
    }
}
