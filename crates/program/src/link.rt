// Linking: from drafts to statements with the labels that they go on to, computed once.
ghost use Rattle.std.specs.Prelude.{◌≡◌, ◌≤◌, [], length, vec_len, vec_capacity};
ghost use Rattle.program.specs.Linked.{Drafted};
ghost use Rattle.program.specs.Statements.{made_of, Small, LinkedSo};

use crate::draft::{Draft, Kind};
use crate::exits::{Exits, entry, exits_of};
use machine::Statement;

// The statement of a draft at its label.
fn instruct(draft: Draft, label: usize, own: Exits) -> Statement
    requires { Small label draft.end own }
    ensures { result ≡ made_of draft.kind label draft.end own }
{
    match draft.kind {
        Kind::Set { register, value } => Statement::Set {
            register,
            value,
            next: own.after as u8,
        },
        Kind::Sense { register } => Statement::Sense {
            register,
            next: own.after as u8,
        },
        Kind::Skip => Statement::Go {
            next: own.after as u8,
        },
        Kind::Break => Statement::Go {
            next: own.breaks as u8,
        },
        Kind::Choose { test, middle } => {
            let yes = entry(label + 1, middle, own.after) as u8;
            let no = entry(middle, draft.end, own.after) as u8;
            Statement::Branch { test, yes, no }
        }
        Kind::Repeat { test } => Statement::Branch {
            test,
            yes: entry(label + 1, draft.end, label) as u8,
            no: own.after as u8,
        },
    }
}

// The statements of all drafts, into an empty vector with room for them.
pub(crate) fn link(drafts: &[Draft], statements: &mut Vec<Statement>)
    requires { (Drafted drafts.now) × ((length drafts.now ≤ 63) × ((63 ≤ vec_capacity statements.old) × (statements.old.items ≡ []))) }
    ensures { LinkedSo drafts.now statements.new.items }
{
    for (label, draft) in drafts.iter().enumerate() {
        statements.push_reserved(instruct(*draft, label, exits_of(drafts, label)));
    }
}
