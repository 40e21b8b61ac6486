// Making a range, and what a register keeps of a value.
ghost use Rattle.std.specs.Prelude.{◌≡◌, suc, true, false};
ghost use Rattle.traces.specs.Making.{Made};
ghost use Rattle.traces.specs.Traces.{kept};
ghost use Rattle.traces.specs.Tables.{above};

use crate::range::Range;

impl Range {
    // The range with these numbers, none where they are not proper.
    pub fn new(low: i16, high: i16, from: i16, to: i16) -> Option<Range>
        ensures { Made low high from to result }
    {
        if low < -1000 || high > 1000 {
            return None;
        }
        if low > from || from > to || to > high {
            return None;
        }
        if high - low > 63 {
            return None;
        }
        Some(Range {
            low,
            high,
            from,
            to,
        })
    }

    // What a register with this range keeps of a value: out of range the nearer end.
    pub fn keep(&self, value: i32) -> i16
        ensures { result ≡ kept self.now value }
    {
        value.clamp(i32::from(self.low), i32::from(self.high)) as i16
    }

    // How far the high end is above the low end.
    pub fn width(&self) -> u64
        ensures { result ≡ above self.now.low self.now.high }
    {
        (self.high - self.low) as u64
    }

    // The number of starts.
    pub fn starts(&self) -> usize
        ensures { result ≡ suc (above self.now.from self.now.to) }
    {
        (self.to - self.from) as usize + 1
    }
}
