// Reading a whole program: declarations, and then statements to the text's end.
ghost use Rattle.std.specs.Prelude.{◌≡◌, vec_len, MatchResult};
ghost use Rattle.program.specs.Headers.{Blank, HeaderStopped};
ghost use Rattle.program.specs.Wholes.{WholeRead};

use crate::board::Board;
use crate::declarations::declarations;
use crate::header::Header;
use crate::phrases::list;
use crate::site::Site;
use text::{Fault, Limits, Scope, Word, unexpected};

// The declarations into the header, and the statements onto the board; both are empty before.
pub(crate) fn whole(
    words: &[Word],
    end: usize,
    header: &mut Header,
    board: &mut Board,
) -> Result<(), Fault>
    requires { (Blank header.old) × ((vec_len board.old.drafts ≡ 0) × (board.old.expressions.counted ≡ 0)) }
    ensures { MatchResult result (λ _. WholeRead words.now header.new board.new) (λ f. HeaderStopped end words.now f) }
{
    let body = declarations(words, header, end)?;
    let site = Site {
        limits: Limits::new(Scope::Declared(header.flags()), end),
        inside: false,
        owner: None,
    };
    let rest = list(body, site, board)?;
    if rest.is_empty() {
        Ok(())
    } else {
        Err(unexpected(rest, end))
    }
}
