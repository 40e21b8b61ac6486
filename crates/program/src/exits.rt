// Where a statement goes on: the labels after it and of its breaks, from the statements that it is a part of.
ghost use Rattle.std.specs.Prelude.{◌≡◌, ◌<◌, length};
ghost use Rattle.program.specs.Linked.{Drafted, ExitsAt, AroundAt, OwnerAt, enclosed_by, entered_at};

use crate::draft::{Draft, Kind};

// The label after a statement, and the label that its breaks go to.
#[derive(Clone, Copy)]
pub struct Exits {
    pub after: usize,
    pub breaks: usize,
}

// The part that a statement stands in: the label behind it, and the part's own exits.
#[derive(Clone, Copy)]
pub struct Around {
    pub limit: usize,
    pub exits: Exits,
}

// The label where a part with the labels from first to end begins, or the label after it where it is empty.
pub(crate) fn entry(first: usize, end: usize, after: usize) -> usize
    ensures { result ≡ entered_at first end after }
{
    if first < end { first } else { after }
}

// The part of an `if` or `while` that a label stands in.
fn enclosed(draft: Draft, owner: usize, own: Exits, label: usize) -> Around
    ensures { result ≡ enclosed_by draft owner own label }
{
    match draft.kind {
        Kind::Choose { middle, .. } => Around {
            limit: if label < middle { middle } else { draft.end },
            exits: own,
        },
        Kind::Repeat { .. } => Around {
            limit: draft.end,
            exits: Exits {
                after: owner,
                breaks: own.after,
            },
        },
        Kind::Set { .. } | Kind::Sense { .. } | Kind::Skip | Kind::Break => Around {
            limit: draft.end,
            exits: own,
        },
    }
}

// The part that a statement stands in: the whole program where it is a part of no other.
// That drafts are a tree's stays a clause: a type for it would hold the lent drafts alone, made in `link` only to be taken apart here.
#[cycle(exits_of_part_around)]
fn part_around(drafts: &[Draft], owner: Option<usize>, label: usize) -> Around
    requires { (label < length drafts.now) × ((OwnerAt drafts.now label owner) × (Drafted drafts.now)) }
    ensures { AroundAt drafts.now label result }
{
    match owner {
        None => {
            let limit = drafts.len();
            let exits = Exits {
                after: limit,
                breaks: limit,
            };
            Around { limit, exits }
        }
        Some(outer) => enclosed(drafts[outer], outer, exits_of(drafts, outer), label),
    }
}

// The exits of the statement at a label.
#[cycle(exits_of_part_around)]
pub(crate) fn exits_of(drafts: &[Draft], label: usize) -> Exits
    requires { (label < length drafts.now) × (Drafted drafts.now) }
    ensures { ExitsAt drafts.now label result }
{
    let part = part_around(drafts, drafts[label].owner, label);
    Exits {
        after: entry(drafts[label].end, part.limit, part.exits.after),
        breaks: part.exits.breaks,
    }
}
