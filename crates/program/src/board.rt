// What a program's statements are read into: drafts in label order, and expressions.
ghost use Rattle.std.specs.Prelude.{◌≤◌, vec_len, vec_capacity};

use crate::draft::Draft;
use text::Expressions;

#[derive(Drop)]
pub struct Board {
    // Drafts lie in a vector that was reserved, and own each other by label: reading may not allocate.
    pub drafts: Vec<Draft>,
    pub expressions: Expressions,
    ghost room: { 63 ≤ vec_capacity drafts },
    ghost few: { vec_len drafts ≤ 63 },
}
