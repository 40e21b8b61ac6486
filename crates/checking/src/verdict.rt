// What a check says, and which tables it takes.
ghost use Rattle.std.specs.Prelude.{◌≡◌};
ghost use Rattle.checking.specs.Standing.{phase_of, told};
ghost use Rattle.checking.specs.Turned.{Fits};

use crate::phase::Phase;
use crate::state::Check;
use model::{Answer, Cause, Layer, Refusal, Verdict};

impl Check {
    // The verdict, how many configurations are stored, and the count: the shown run's states for a fail, 0 for pass and
    // full, and while working a number such that every run of so many states is permitted.
    pub fn verdict(&self) -> Answer
        ensures { result ≡ told (phase_of self.now.phase) self.now.stored }
    {
        let (verdict, count) = match self.phase {
            Phase::Looking { level, .. } => (Verdict::Working, level as usize),
            Phase::Extending { level, .. } => (Verdict::Working, level as usize + 1),
            Phase::Passing => (Verdict::Pass, 0),
            Phase::Failing { before, .. } => (Verdict::Fail, before as usize + 1),
            Phase::Filled => (Verdict::Full, 0),
        };
        Answer {
            verdict,
            count,
            stored: self.stored as usize,
        }
    }

    // A table of another length than at opening is turned away.
    pub(crate) fn fits(&self, length: usize) -> Result<(), Refusal>
        ensures { Fits self.now.places length result }
    {
        if length != self.places {
            return Err(Refusal::new(Layer::Check, Cause::Misfit, length));
        }
        Ok(())
    }
}
