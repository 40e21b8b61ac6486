// A line of a report while it is written.
ghost use Rattle.std.specs.Prelude.{◌≡◌, ℕ, ◌+◌, ◌*◌, ◌<◌, ◌≤◌, List, [], ◌∷◌, ◌++◌, length, take, MatchResult, Ok, decimal};
ghost use Rattle.std.specs.Fmt.{signed_decimal};
ghost use Rattle.model.specs.Refusals.{reply};
ghost use Rattle.job.specs.declared.line.TheConstants.{ROOM};
ghost use Rattle.job.specs.Lines.{Wrote, spaced, listed};

use model::{Cause, Layer, Refusal};
use std::marker::Model;

// No line is longer.
pub const ROOM: usize = 64;

// Its bytes lie in an array, since no heap may be used here.
// Not the kit's `arrayvec`: no crate but lastcheck stands on one of the kit's, so that what is trusted stays small.
#[derive(Drop)]
pub(crate) struct Line {
    bytes: [u8; ROOM],
    length: usize,
}

impl Model for Line {
    ghost Value = { List ℕ };

    ghost view = { λ l. take l.length l.bytes };

    ghost invariant = { λ l. l.length ≤ ROOM };
}

impl Line {
    pub(crate) fn new() -> Line
        ensures { result ≡ [] }
    {
        Line {
            bytes: [0; ROOM],
            length: 0,
        }
    }

    pub(crate) fn push_bytes(&mut self, piece: &[u8])
        requires { length self.old + length piece.now ≤ ROOM }
        ensures bytes { self.new ≡ self.old ++ piece.now }
        ensures longer { length self.new ≡ length self.old + length piece.now }
    {
        let end = self.length + piece.len();
        self.bytes[self.length..end].copy_from_slice(piece);
        self.length = end;
    }

    // A number's decimal digits; `write!` says nothing of when it succeeds, and so no line that can't fail proves with it.
    // The kit's `itoa` has the digits, but no crate but lastcheck stands on one of the kit's.
    pub(crate) fn push_number(&mut self, number: u64)
        requires { length self.old + length (decimal number) ≤ ROOM }
        ensures number { self.new ≡ self.old ++ decimal number }
        ensures longer { length self.new ≡ length self.old + length (decimal number) }
    {
        if number >= 10 {
            self.push_number(number / 10);
        }
        self.push_bytes(&[b'0' + (number % 10) as u8]);
    }

    // A space, and a number's decimal digits.
    #[tactic(auto, using(crate::proofs::Numerals::at_most_20, crate::proofs::Numerals::at_most_3))]
    pub(crate) fn push_spaced(&mut self, number: u64)
        requires { length self.old + 21 ≤ ROOM }
        ensures number { self.new ≡ self.old ++ spaced number }
        ensures bound { length self.new ≤ length self.old + 21 }
        ensures small { number < 1000 → length self.new ≤ length self.old + 4 }
    {
        self.push_bytes(b" ");
        self.push_number(number);
    }

    // A space, and a value's decimal digits with `-` before a negative one.
    #[tactic(auto, using(crate::proofs::Numerals::at_most_5))]
    fn push_value(&mut self, value: i16)
        requires { length self.old + 7 ≤ ROOM }
        ensures value { self.new ≡ self.old ++ (32 ∷ signed_decimal value) }
        ensures bound { length self.new ≤ length self.old + 7 }
    {
        self.push_bytes(if value < 0 { b" -" } else { b" " });
        self.push_number(u64::from(value.unsigned_abs()));
    }

    // The values, each behind a space.
    pub(crate) fn push_values(&mut self, values: &[i16])
        requires { length self.old + 7 * length values.now ≤ ROOM }
        ensures values { self.new ≡ self.old ++ listed values.now }
        ensures bound { length self.new ≤ length self.old + 7 * length values.now }
    {
        for value in values {
            self.push_value(*value);
        }
    }

    // Ends the line and writes it to the front of a buffer; answers its length.
    pub(crate) fn end_in(mut self, out: &mut [u8]) -> usize
        requires line { length self < ROOM }
        requires buffer { ROOM ≤ length out.old }
        ensures line { Wrote (self ++ (10 ∷ [])) out.old out.new (Ok result) }
        ensures within { result ≤ length out.new }
    {
        self.push_bytes(b"\n");
        out[..self.length].copy_from_slice(&self.bytes[..self.length]);
        self.length
    }
}

// Turns a buffer away that a line may not fit in; it is asked before the line is put together.
pub(crate) fn check_room(out: &[u8]) -> Result<(), Refusal>
    ensures { MatchResult result (λ _. ROOM ≤ length out.now) (λ e. (length out.now < ROOM) × (reply e ≡ (6, 18, length out.now))) }
{
    if out.len() < ROOM {
        return Err(Refusal::new(Layer::Check, Cause::Line, out.len()));
    }
    Ok(())
}
