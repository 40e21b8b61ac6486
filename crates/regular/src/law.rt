// What the position automaton is for, as a theorem about every expression.
ghost use Rattle.std.specs.Prelude.{◌≡◌};
ghost use Rattle.regular.specs.declared.positions.Positions.TheVariants.{Start};
ghost use Rattle.regular.specs.Words.{Regex};
ghost use Rattle.regular.specs.Automaton.{FollowsWords};

use crate::positions::Positions;

// For every expression: the moments that bring the automaton to a state are those that the words permit, and that state is
// the set of assertions that can be the last. The answer is the state that this is about, the first.
pub fn automaton_follows_words() -> Positions
    ensures first { result ≡ Start }
    ensures law { (e : Regex) → FollowsWords e }
{
    Positions::Start
}
