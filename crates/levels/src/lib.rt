// The theory of a check: breadth-first levels of configurations, and what they say of all runs of a cell.
#![tactic(auto)]

ghost use Rattle.std.specs.Prelude.{ℕ};
ghost use Rattle.levels.specs.Law.{Law, Tally, keys};
ghost use Rattle.levels.specs.Units.{after, says};
ghost use Rattle.model.specs.Keys.{configuration_key};

use model::{Cell, Watch};

// The law of a check, for every cell, every watch, every number of places n and every number of units u: what the
// check says after u units is true of all runs, and what it has stored are the configurations of the runs that it says
// this of.
pub fn law_holds<C: Cell, W: Watch>(cell: &C, watch: &W)
    ensures law { (n u : ℕ) → Law (C.Cell.cell cell.now) (W.Watch.watch watch.now) n u (says (after (C.Cell.cell cell.now) (W.Watch.watch watch.now) (configuration_key W.State.Key.kind).alike n u)) }
    ensures tally { (n u : ℕ) → Tally (C.Cell.cell cell.now) (W.Watch.watch watch.now) n (keys (after (C.Cell.cell cell.now) (W.Watch.watch watch.now) (configuration_key W.State.Key.kind).alike n u).stored) (says (after (C.Cell.cell cell.now) (W.Watch.watch watch.now) (configuration_key W.State.Key.kind).alike n u)) }
{}
