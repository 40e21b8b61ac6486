// Where a statement is to be read: its first word, the words behind it, and where it stands.
use crate::site::Site;
use text::Word;

#[derive(Clone, Copy)]
pub struct Start<'a> {
    pub word: Word,
    pub rest: &'a [Word],
    pub site: Site,
}
