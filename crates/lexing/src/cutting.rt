// Reserving the room for the words of a text, and cutting a text into it.
ghost use Rattle.std.specs.Prelude.{◌≡◌, ◌<◌, ◌≤◌, [], length, IfOk, MatchResult, vec_len};
ghost use Rattle.lexing.specs.Cut.{CutSo, TooLong, StepSo};

use crate::scan::{front, separator};
use crate::words::Words;
use model::Cause;
use std::alloc::{AllocError, Global};
use text::{Fault, Word};

// The most bytes of a text.
pub const LONGEST: usize = 4096;

impl Words {
    // Room for the words of one text: it has at most as many as bytes.
    pub fn reserve(heap: Global) -> Result<Words, AllocError>
        ensures { IfOk result (λ x. x.list.items ≡ []) }
    {
        let list = Vec::with_capacity(heap, LONGEST)?;
        Ok(Words { list })
    }

    // The words of the text last cut.
    pub fn list(&self) -> &[Word]
        ensures { result.now ≡ self.now.list.items }
    {
        self.list.as_slice()
    }

    // Cuts a text into its words; a text over 4,096 bytes is not cut, and nothing changes.
    pub fn cut(&mut self, text: &[u8]) -> Result<(), Fault>
        ensures { MatchResult result (λ _. CutSo text.now self.new) (λ f. TooLong text.now f × (self.new ≡ self.old)) }
    {
        if text.len() > LONGEST {
            return Err(Fault {
                cause: Cause::Length,
                place: LONGEST,
            });
        }
        self.list.clear();
        // A step goes on by a whole word, so the places are no range to count through.
        let mut place = 0;
        while place < text.len() {
            place = self.step(text, place);
        }
        Ok(())
    }

    // Takes the word that begins at a place, or passes over a separator, and tells the place behind it.
    fn step(&mut self, text: &[u8], place: usize) -> usize
        requires { (place < length text.now) × ((vec_len self.old.list < 4096) × (length text.now ≤ 4096)) }
        ensures { StepSo text.now place self.old self.new result }
    {
        let bytes = &text[place..];
        if separator(bytes[0]) {
            return place + 1;
        }
        let (token, size) = front(bytes);
        self.list.push_reserved(Word { token, place });
        place + size
    }
}
