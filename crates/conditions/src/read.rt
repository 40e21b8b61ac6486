// Reading a whole text that is one boolean expression, as sheets and monitors have them between brackets.
ghost use Rattle.std.specs.Prelude.{◌≡◌, MatchResult};
ghost use Rattle.conditions.specs.Meaning.{GoodCondition, BadCondition};

use lexing::Words;
use text::{Expressions, Fault, Limits, Scope, condition, unexpected};

// An expression that has been read, and the place of its last node.
#[derive(Drop)]
pub struct ConditionText {
    pub expressions: Expressions,
    pub index: usize,
}

// The expression that a text is, or the fault that the text deserves.
pub fn read_condition(
    text: &[u8],
    mut words: Words,
    mut room: Expressions,
) -> Result<ConditionText, Fault>
    ensures { MatchResult result (λ x. GoodCondition text.now room.counted x.expressions x.index) (λ f. BadCondition text.now room.counted f) }
{
    words.cut(text)?;
    let limits = Limits::new(Scope::Every, text.len());
    let read = condition(words.list(), limits, &mut room)?;
    if !read.rest.is_empty() {
        return Err(unexpected(read.rest, limits.end));
    }
    Ok(ConditionText {
        expressions: room,
        index: read.index,
    })
}
