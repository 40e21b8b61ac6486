// Adding drafts, and settling one.
ghost use Rattle.std.specs.Prelude.{◌≡◌, ◌+◌, ◌<◌, ◌≤◌, vec_len, MatchResult};
ghost use Rattle.program.specs.Boards.{Charged, Pushed, Replaced};

use crate::board::Board;
use crate::draft::{Draft, Kind};
use model::Cause;
use text::{Fault, Word};

// The most labelled statements of a program.
pub const MOST_STATEMENTS: usize = 63;

impl Board {
    // The fault of a statement's first word where no statement more may stand.
    // Not one function with the other limits of a count: each has its own field, bound and cause, and is this one test.
    pub(crate) fn check_room(&self, word: Word) -> Result<(), Fault>
        ensures { MatchResult result (λ _. vec_len self.now.drafts < 63) (Charged (63 ≤ vec_len self.now.drafts) Cause.Many word) }
    {
        if self.drafts.len() >= MOST_STATEMENTS {
            return Err(word.fault(Cause::Many));
        }
        Ok(())
    }

    // Adds the draft of the next label, which is told; no other label is in it.
    pub(crate) fn add(&mut self, kind: Kind, owner: Option<usize>) -> usize
        requires { vec_len self.old.drafts < 63 }
        ensures label { result ≡ vec_len self.old.drafts }
        ensures added { Pushed (record { kind = kind; owner = owner; end = vec_len self.old.drafts + 1 }) self.old self.new }
    {
        let label = self.drafts.len();
        self.drafts.push_reserved(Draft {
            kind,
            owner,
            end: label + 1,
        });
        label
    }

    // Settles the draft of a label, now that all labels in it have been added.
    pub(crate) fn settle(&mut self, label: usize, kind: Kind, owner: Option<usize>)
        requires { label < vec_len self.old.drafts }
        ensures { Replaced label (record { kind = kind; owner = owner; end = vec_len self.old.drafts }) self.old self.new }
    {
        let end = self.drafts.len();
        self.drafts[label] = Draft { kind, owner, end };
    }
}
