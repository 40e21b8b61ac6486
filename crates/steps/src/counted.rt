// Rows and arcs for a step table: they are counted and tested, and listed for the index.
ghost use Rattle.std.specs.Prelude.{◌≡◌, ℕ, ◌+◌, ◌<◌, ◌≤◌, ◌⊎◌, true, false, [], length, take, MatchResult};
ghost use Rattle.steps.specs.Index.{Begun, Filed, Entered};
ghost use Rattle.steps.specs.Tables.{proper_arcs, proper_rows};

use crate::row::{Arc, Row};
use crate::short::Short;
use crate::table::{Nexts, ROWS};
use model::{Cause, Layer, Refusal};

const ARCS: usize = 4096;

// The arc leads from or to no row, or its row has no room for one more.
#[derive(Drop)]
struct Improper;

// No more rows and no more arcs than a table holds.
#[derive(Clone, Copy)]
pub(crate) struct Counted<'a> {
    rows: &'a [Row],
    arcs: &'a [Arc],
    ghost few_rows: { length rows.now ≤ 256 },
    ghost few_arcs: { length arcs.now ≤ 4096 },
}

impl<'a> Counted<'a> {
    // Refuses the first row or arc past its limit.
    pub(crate) fn new(rows: &'a [Row], arcs: &'a [Arc]) -> Result<Counted<'a>, Refusal>
        ensures { MatchResult result (λ l. (l.rows.now ≡ rows.now) × (l.arcs.now ≡ arcs.now)) (λ e. ((e ≡ record { layer = Layer.Steps; cause = Cause.Many; place = 256 }) × (256 < length rows.now)) ⊎ ((e ≡ record { layer = Layer.Steps; cause = Cause.Many; place = length rows.now + 4096 }) × (length rows.now ≤ 256) × (4096 < length arcs.now))) }
    {
        if rows.len() > ROWS {
            return Err(Refusal::new(Layer::Steps, Cause::Many, ROWS));
        }
        if arcs.len() > ARCS {
            return Err(Refusal::new(Layer::Steps, Cause::Many, rows.len() + ARCS));
        }
        Ok(Counted { rows, arcs })
    }

    // Refuses the first row that is not proper.
    pub(crate) fn check_rows(&self) -> Result<(), Refusal>
        ensures { MatchResult result (λ _. proper_rows self.now.rows.now ≡ true) (λ e. (i : ℕ) × (e ≡ record { layer = Layer.Steps; cause = Cause.Step; place = i }) × (i < length self.now.rows.now) × (proper_rows (take i self.now.rows.now) ≡ true) × (proper_rows (take (i + 1) self.now.rows.now) ≡ false)) }
    {
        match self.rows.iter().position(|row| !row.is_proper()) {
            Some(place) => Err(Refusal::new(Layer::Steps, Cause::Step, place)),
            None => Ok(()),
        }
    }

    // The numbers of the start rows.
    pub(crate) fn starts(&self) -> Short<ROWS>
        ensures { Begun self.now.rows.now result }
    {
        let mut starts = Short::new();
        for (number, row) in self.rows.iter().enumerate() {
            if row.start {
                // There is room for a number of every row.
                let _ = starts.push(number as u8);
            }
        }
        starts
    }

    // Files where the arcs of each row lead into lists that are empty, or refuses the first arc that is not proper. Into the
    // caller's lists: handed out by value they would be copied once more, and they are most of what a table is.
    pub(crate) fn file(&self, nexts: &mut Nexts) -> Result<(), Refusal>
        requires { Filed [] nexts.old }
        ensures { MatchResult result (λ _. (proper_arcs (length self.now.rows.now) [] self.now.arcs.now ≡ true) × Filed self.now.arcs.now nexts.new) (λ e. (i : ℕ) × (e ≡ record { layer = Layer.Steps; cause = Cause.Step; place = length self.now.rows.now + i }) × (i < length self.now.arcs.now) × (proper_arcs (length self.now.rows.now) [] (take i self.now.arcs.now) ≡ true) × (proper_arcs (length self.now.rows.now) [] (take (i + 1) self.now.arcs.now) ≡ false)) }
    {
        for (number, arc) in self.arcs.iter().enumerate() {
            let refusal = Refusal::new(Layer::Steps, Cause::Step, self.rows.len() + number);
            self.enter(arc, nexts).map_err(|_| refusal)?;
        }
        Ok(())
    }

    // Puts where an arc leads behind the others of its row, if the arc is proper.
    fn enter(&self, arc: &Arc, nexts: &mut Nexts) -> Result<(), Improper>
        ensures { Entered (length self.now.rows.now) arc.now nexts.old nexts.new result }
    {
        let from = usize::from(arc.from);
        if from >= self.rows.len() || usize::from(arc.to) >= self.rows.len() {
            return Err(Improper);
        }
        let row = &mut nexts[from];
        row.push(arc.to as u8).map_err(|_| Improper)
    }
}
