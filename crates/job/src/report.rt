// The lines of a report, written into a buffer of the caller's.
ghost use Rattle.std.specs.Prelude.{◌≡◌, ◌≤◌, length, IfOk};
ghost use Rattle.job.specs.Lines.{Wrote, word, refused_line, verdict_line, state_line};

use crate::line::{Line, check_room};
use model::{Answer, Reading, Refusal, Verdict};

// No `Display`: nothing says that printing it succeeds, and so no line that can't fail proves with it.
fn verdict_word(verdict: Verdict) -> &'static [u8]
    ensures value { result.now ≡ word verdict }
    ensures short { length result.now ≤ 7 }
{
    match verdict {
        Verdict::Working => b"working",
        Verdict::Pass => b"pass",
        Verdict::Fail => b"fail",
        Verdict::Full => b"full",
    }
}

// Each of these three says `within` beside `Wrote`, which holds it too: callers cut their buffer by that clause as it is.
// The line of a refusal; answers its length.
pub fn refused_line(out: &mut [u8], refusal: &Refusal) -> Result<usize, Refusal>
    ensures line { Wrote (refused_line refusal.now) out.old out.new result }
    ensures within { IfOk result (λ n. n ≤ length out.new) }
{
    check_room(out)?;
    let mut line = Line::new();
    line.push_bytes(b"refused");
    line.push_spaced(u64::from(u8::from(refusal.layer)));
    line.push_spaced(u64::from(u8::from(refusal.cause)));
    line.push_spaced(refusal.place as u64);
    Ok(line.end_in(out))
}

// The first line of a verdict's report; answers its length.
pub fn verdict_line(out: &mut [u8], answer: &Answer) -> Result<usize, Refusal>
    ensures line { Wrote (verdict_line answer.now) out.old out.new result }
    ensures within { IfOk result (λ n. n ≤ length out.new) }
{
    check_room(out)?;
    let mut line = Line::new();
    line.push_bytes(verdict_word(answer.verdict));
    line.push_spaced(answer.count as u64);
    line.push_spaced(answer.stored as u64);
    Ok(line.end_in(out))
}

// The line of one state of a shown run; answers its length.
#[tactic(auto, using(crate::proofs::Numerals::at_most_20))]
pub fn state_line(out: &mut [u8], state: &Reading) -> Result<usize, Refusal>
    ensures line { Wrote (state_line state.now) out.old out.new result }
    ensures within { IfOk result (λ n. n ≤ length out.new) }
{
    check_room(out)?;
    let mut line = Line::new();
    line.push_number(u64::from(state.label));
    line.push_values(&state.values);
    Ok(line.end_in(out))
}
