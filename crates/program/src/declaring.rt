// Declaring one register more.
ghost use Rattle.std.specs.Prelude.{◌≡◌, suc, ◌*◌, ◌<◌, ◌≤◌, MatchResult};
ghost use Rattle.text.specs.Words.{register_index};
ghost use Rattle.traces.specs.Tables.{above};
ghost use Rattle.program.specs.Boards.{Charged};
ghost use Rattle.program.specs.Growth.{Declared};

use crate::header::Header;
use model::Cause;
use text::{Fault, Register, Word};
use traces::Range;

// The most settings of the declared registers.
const MOST_SETTINGS: usize = 65_536;

impl Header {
    // Declares a register; or there would be too many settings, which is the fault of the declaration's `;`, and then nothing changes.
    pub(crate) fn declare(
        &mut self,
        register: Register,
        range: Range,
        sign: Word,
    ) -> Result<(), Fault>
        requires { self.old.next ≤ register_index register }
        ensures { MatchResult result (λ _. Declared register range self.old self.new) (λ f. (self.new ≡ self.old) × Charged (65536 < self.old.settings * suc (above range.from range.to)) Cause.Starts sign f) }
    {
        match self.settings.checked_mul(range.starts()) {
            Some(settings) if settings <= MOST_SETTINGS => {
                self.ranges[register.index()] = Some(range);
                self.settings = settings;
                self.next = register.index() + 1;
                Ok(())
            }
            _ => Err(sign.fault(Cause::Starts)),
        }
    }
}
