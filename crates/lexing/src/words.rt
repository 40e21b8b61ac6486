// The words of one text, in a vector that is reserved before the text is read.
ghost use Rattle.std.specs.Prelude.{◌≤◌, vec_capacity};

use text::Word;

#[derive(Drop)]
pub struct Words {
    pub(crate) list: Vec<Word>,
    ghost room: { 4096 ≤ vec_capacity list },
}
