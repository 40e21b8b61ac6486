// What has been declared, before the first word and behind the last declaration.
ghost use Rattle.std.specs.Prelude.{◌≡◌, map, is_some};
ghost use Rattle.traces.specs.Programs.{range as range_of};
ghost use Rattle.program.specs.Headers.{Blank};

use crate::header::Header;
use traces::Range;

impl Header {
    // Nothing is declared.
    pub(crate) fn new() -> Header
        ensures { Blank result }
    {
        Header {
            ranges: [None; 6],
            settings: 1,
            next: 0,
        }
    }

    // Which registers are declared.
    pub(crate) fn flags(&self) -> [bool; 6]
        ensures { result ≡ map is_some self.now.ranges }
    {
        self.ranges.map(|range| range.is_some())
    }

    // The ranges of all six registers: an undeclared one has the value 0 only.
    pub(crate) fn full(&self) -> [Range; 6]
        ensures { result ≡ map range_of self.now.ranges }
    {
        self.ranges.map(range)
    }
}

// The range of a register, declared or not.
fn range(declared: Option<Range>) -> Range
    ensures { result ≡ range_of declared }
{
    declared.unwrap_or(Range {
        low: 0,
        high: 0,
        from: 0,
        to: 0,
    })
}
