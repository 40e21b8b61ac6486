// Codes: packing and unpacking values, and the code of a start.
ghost use Rattle.std.specs.Prelude.{◌≡◌, ◌<◌, ◌≤◌, length, pos, ◌+ℤ◌, ◌≤ℤ◌, Some};
ghost use Rattle.traces.specs.Tables.{above};
ghost use Rattle.model.specs.Cells.{at};
ghost use Rattle.traces.specs.Codes.{packed, settings, start_codes};
ghost use Rattle.traces.proofs.Packing.{Fits};
ghost use Rattle.machine.specs.Cells.{values_in};

use traces::Range;

// How far a value is above the low end.
fn digit(range: &Range, value: i16) -> u64
    requires { (range.now.low ≤ℤ value) × (value ≤ℤ range.now.high) }
    ensures { result ≡ above range.now.low value }
{
    (value - range.low) as u64
}

// The value so far above the low end.
pub(crate) fn value(range: &Range, digit: u64) -> i16
    requires { digit ≤ above range.now.low range.now.high }
    ensures { result ≡ range.now.low +ℤ pos digit }
{
    range.low + digit as i16
}

// The values that a sum of digits stands for, none where a digit is out of its range.
pub(crate) fn unpack(ranges: &[Range; 6], sum: u64) -> Option<[i16; 6]>
    ensures { result ≡ values_in ranges.now sum }
{
    let mut rest = sum;
    let mut values = [0; 6];
    for (place, range) in ranges.iter().enumerate() {
        let digit = rest % 64;
        if digit > range.width() {
            return None;
        }
        // Set by its place: after an adapter of iter_mut the library tells nothing of the values.
        values[place] = value(range, digit);
        rest /= 64;
    }
    (rest == 0).then_some(values)
}

// The sum of digits of values in range.
pub(crate) fn pack(ranges: &[Range; 6], values: &[i16; 6]) -> u64
    requires { Fits ranges.now values.now }
    ensures { result ≡ packed ranges.now values.now }
{
    let mut sum = 0;
    let mut weight = 1;
    for (range, value) in ranges.iter().zip(values) {
        sum += digit(range, *value) * weight;
        weight *= 64;
    }
    sum
}

// The number of settings.
pub(crate) fn count(ranges: &[Range; 6]) -> usize
    requires { settings ranges.now ≤ 65536 }
    ensures { result ≡ settings ranges.now }
{
    ranges.iter().map(Range::starts).product()
}

// The code of the start at a place: the first register changes fastest.
// It sums its digits as it finds them: by way of the values, for pack to sum, it would be a loop more.
pub(crate) fn start(ranges: &[Range; 6], place: usize) -> u64
    requires { place < settings ranges.now }
    ensures { at (start_codes ranges.now) place ≡ Some result }
{
    let mut rest = place;
    let mut sum = 0;
    let mut weight = 1;
    for range in ranges {
        let count = range.starts();
        let digit = digit(range, range.from) + (rest % count) as u64;
        sum += digit * weight;
        weight *= 64;
        rest /= count;
    }
    sum
}
