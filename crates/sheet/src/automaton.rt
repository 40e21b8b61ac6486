// The position automaton of a tree: nullable, first, last and follow, in one pass over the nodes from front to back.
ghost use Rattle.std.specs.Prelude.{◌≡◌, ◌+◌, ◌-◌, ◌<◌, ◌≤◌, [], length, get_or, replicate, vec_len, vec_capacity, slice_index_or};
ghost use Rattle.std.specs.List.{AllByRecursion};
ghost use Rattle.regular.specs.Sets.{gain};
ghost use Rattle.sheet.specs.Passes.{nothing, Placed, Roomy, of_sequence, of_alternative, summary, linked, all_summaries, links};

use crate::room::AutomatonRoom;
use crate::tree::{Node, Summary};
use regular::{has, with};

// The summary at an index; past the end there are no words at all.
fn at(summaries: &[Summary], index: usize) -> Summary
    ensures { result ≡ slice_index_or summaries.now index nothing }
{
    summaries.get(index).copied().unwrap_or_default()
}

fn of_sequence(left: Summary, right: Summary) -> Summary
    ensures { result ≡ of_sequence left right }
{
    let first = if left.nullable {
        left.first | right.first
    } else {
        left.first
    };
    let last = if right.nullable {
        left.last | right.last
    } else {
        right.last
    };
    Summary {
        nullable: left.nullable && right.nullable,
        first,
        last,
    }
}

fn of_alternative(left: Summary, right: Summary) -> Summary
    ensures { result ≡ of_alternative left right }
{
    Summary {
        nullable: left.nullable || right.nullable,
        first: left.first | right.first,
        last: left.last | right.last,
    }
}

// The summary of a node by those of the nodes before it.
fn summarize(summaries: &[Summary], node: Node) -> Summary
    requires { Placed node }
    ensures { result ≡ summary summaries.now node }
{
    match node {
        Node::Empty => Summary {
            nullable: true,
            ..Summary::default()
        },
        Node::One(place) => Summary {
            nullable: false,
            first: with(0, place),
            last: with(0, place),
        },
        Node::Sequence(left, right) => of_sequence(at(summaries, left), at(summaries, right)),
        Node::Alternative(left, right) => of_alternative(at(summaries, left), at(summaries, right)),
        Node::Star(turn) => Summary {
            nullable: true,
            ..at(summaries, turn)
        },
        Node::Plus(turn) => at(summaries, turn),
    }
}

// From now on each place of the first set can be followed by each of the second.
fn join(follow: &mut [u64], from: u64, to: u64)
    ensures { follow.new ≡ gain follow.old from to (length follow.old) }
{
    for (place, next) in follow.iter_mut().enumerate() {
        if has(from, place) {
            *next |= to;
        }
    }
}

// What a node adds to the sets of places that can follow each place.
fn link(summaries: &[Summary], node: Node, follow: &mut [u64])
    ensures { follow.new ≡ linked summaries.now follow.old node }
{
    match node {
        Node::Empty | Node::One(_) | Node::Alternative(_, _) => {}
        Node::Sequence(left, right) => join(
            follow,
            at(summaries, left).last,
            at(summaries, right).first,
        ),
        Node::Star(turn) | Node::Plus(turn) => {
            let turn = at(summaries, turn);
            join(follow, turn.last, turn.first);
        }
    }
}

// The pass itself: a summary for each node, and the sets of places that can follow each place.
fn pass(nodes: &[Node], summaries: &mut Vec<Summary>, follow: &mut [u64])
    requires placed { AllByRecursion Placed nodes.now }
    requires room { vec_len summaries.old + length nodes.now ≤ vec_capacity summaries.old }
    ensures summarized { summaries.new.items ≡ all_summaries summaries.old.items nodes.now }
    ensures linked { follow.new ≡ links summaries.old.items follow.old nodes.now }
{
    for node in nodes {
        let summary = summarize(summaries, *node);
        link(summaries, *node, follow);
        summaries.push_reserved(summary);
    }
}

// One empty set for each place; `resize` may ask for memory, and reading may not.
fn clear(follow: &mut Vec<u64>, count: usize)
    requires { (vec_len follow.old ≡ 0) × (count ≤ vec_capacity follow.old) }
    ensures { (follow.new.items ≡ replicate count 0) × (vec_len follow.new ≡ count) }
{
    for _place in 0..count {
        follow.push_reserved(0);
    }
}

// The position automaton of a tree with so many assertions: the places that a word can begin with, and those that can follow each.
pub(crate) fn automaton(nodes: &[Node], count: usize, room: AutomatonRoom) -> (u64, Vec<u64>)
    requires { Roomy nodes.now count }
    ensures first { result.0 ≡ (get_or (all_summaries [] nodes.now) (length nodes.now - 1) nothing).first }
    ensures follow { result.1.items ≡ links [] (replicate count 0) nodes.now }
    ensures count { vec_len result.1 ≡ count }
{
    let AutomatonRoom {
        mut summaries,
        mut follow,
    } = room;
    clear(&mut follow, count);
    pass(nodes, &mut summaries, follow.as_mut_slice());
    let first = at(&summaries, nodes.len().saturating_sub(1)).first;
    (first, follow)
}
