// Granting a check units of work.
ghost use Rattle.std.specs.Prelude.{ℕ, ◌+◌};
ghost use Rattle.checking.specs.Standing.{Adds, Stands};
ghost use Rattle.checking.specs.Working.{Works};

use crate::product::Product;
use crate::state::Check;
use model::{Answer, Cell, Configuration, Refusal, Watch};
use store::Record;

impl Check {
    // Spends the units, or as many of them as it takes to settle the check.
    fn spend<C: Cell, W: Watch>(
        &mut self,
        product: &Product<C, W>,
        table: &mut [Record<Configuration<W::State>>],
        units: u64,
    )
        ensures adds { Adds self.old self.new table.old table.new }
        ensures stands { (u : ℕ) → Stands (C.Cell.cell product.now.cell.now) (W.Watch.watch product.now.watch.now) W.State.Key.kind u self.old table.old → Stands (C.Cell.cell product.now.cell.now) (W.Watch.watch product.now.watch.now) W.State.Key.kind (u + units) self.new table.new }
    {
        for _spent in 0..units {
            if self.place().is_none() {
                return;
            }
            self.unit(product, table);
        }
    }

    // Grants units of work, used or not. The answer is the verdict then.
    pub fn work<C: Cell, W: Watch>(
        &mut self,
        cell: &C,
        watch: &W,
        table: &mut [Record<Configuration<W::State>>],
        units: u64,
    ) -> Result<Answer, Refusal>
        ensures { Works (C.Cell.cell cell.now) (W.Watch.watch watch.now) W.State.Key.kind units self.old self.new table.old table.new result }
    {
        self.fits(table.len())?;
        self.spend(&Product { cell, watch }, table, units);
        Ok(self.verdict())
    }
}
