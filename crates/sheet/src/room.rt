// Memory for one sheet, got before the first word is read: reading needs no more.
ghost use Rattle.std.specs.Prelude.{◌≡◌, ◌≤◌, vec_len, vec_capacity};

use crate::draft::Draft;
use crate::tree::Summary;
use lexing::Words;

// Memory for the position automaton of a sheet: a summary for each node, and a set for each assertion.
// The summaries lie beside the nodes, not in them: the sheet keeps its nodes, and needs no summary when its automaton is made.
#[derive(Drop)]
pub struct AutomatonRoom {
    pub(crate) summaries: Vec<Summary>,
    pub(crate) follow: Vec<u64>,
    ghost summary_room: { 632 ≤ vec_capacity summaries },
    ghost follow_room: { 60 ≤ vec_capacity follow },
    ghost fresh: { (vec_len summaries ≡ 0) × (vec_len follow ≡ 0) },
}

#[derive(Drop)]
pub struct Room {
    pub(crate) words: Words,
    pub(crate) draft: Draft,
    pub(crate) automaton: AutomatonRoom,
    ghost fresh: { (vec_len draft.nodes ≡ 0) × (vec_len draft.leaves ≡ 0) × (draft.signs ≡ 0) × (draft.tests.counted ≡ 0) },
}
