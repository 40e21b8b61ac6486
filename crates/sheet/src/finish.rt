// From a draft to a sheet: the position automaton of its tree.
ghost use Rattle.std.specs.Prelude.{◌≡◌};
ghost use Rattle.regular.specs.Words.{Regex};
ghost use Rattle.sheet.specs.Drafts.{LaidDown};
ghost use Rattle.sheet.specs.Sheets.{tree_of};

use crate::automaton::automaton;
use crate::draft::Draft;
use crate::room::AutomatonRoom;
use crate::sheet::Sheet;

// The sheet of a draft in which an expression lies.
pub(crate) fn finished(draft: Draft, room: AutomatonRoom) -> Sheet
    requires { (e : Regex) × LaidDown draft e }
    ensures { (e : Regex) → LaidDown draft e → tree_of result ≡ e }
{
    let Draft {
        nodes,
        leaves,
        tests,
        signs: _,
    } = draft;
    let (first, follow) = automaton(nodes.as_slice(), leaves.len(), room);
    Sheet {
        nodes,
        leaves,
        tests,
        first,
        follow,
    }
}
