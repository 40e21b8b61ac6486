// A check unit by unit, on a cell and a watch that are small enough to work the answers out by hand.
ghost use Rattle.std.specs.Prelude.{◌≡◌};
ghost use Rattle.checking.specs.Lines.{line, below};

use crate::calls::{Asked, Call, Reply};
use crate::replaying::replay;
use crate::state::Check;
use model::{Answer, Cause, Cell, Configuration, Layer, Moment, Reading, Refusal, Verdict, Watch};
use std::process::Abort;
use std::test::Fail;
use store::Record;

// The codes 0 to 3 in a line. It starts at 0, which is told twice, or nowhere, and 0, 1 and 2 lead to the next code,
// which is told twice as well. A code's label is the code.
#[derive(Clone, Copy)]
struct Line {
    on: bool,
}

impl Cell for Line {
    ghost cell = { λ l. line l.on };

    fn start_count(&self) -> usize {
        if self.on { 2 } else { 0 }
    }

    fn start_at(&self, place: usize) -> Option<u64> {
        (self.on && place < 2).then_some(0)
    }

    fn next_count(&self, code: u64) -> usize {
        if code < 3 { 2 } else { 0 }
    }

    fn next_at(&self, code: u64, place: usize) -> Option<u64> {
        if code >= 3 || place >= 2 {
            return None;
        }
        Some(code + 1)
    }

    fn observe(&self, code: u64, reading: &mut Reading) -> bool {
        *reading = Reading {
            label: (code % 4) as u8,
            values: [0; 6],
        };
        true
    }
}

// Permits the runs whose labels are all below a limit.
#[derive(Clone, Copy)]
struct Below {
    limit: u8,
}

impl Watch for Below {
    type State = u64;

    ghost watch = { λ b. below b.limit };

    fn first(&self) -> u64 {
        0
    }

    fn step(&self, state: &u64, moment: &Moment) -> Option<u64> {
        (moment.label < self.limit).then_some(*state)
    }
}

const LINE: Line = Line { on: true };

// What a table holds before it is used.
fn blank() -> Record<Configuration<u64>> {
    Record::new(Configuration {
        first: 9,
        last: 9,
        state: 9,
    })
}

fn told(verdict: Verdict, count: usize, stored: usize) -> Answer {
    Answer {
        verdict,
        count,
        stored,
    }
}

fn refusal(cause: Cause, place: usize) -> Refusal {
    Refusal::new(Layer::Check, cause, place)
}

fn opened(
    on: bool,
    limit: u8,
    table: &mut [Record<Configuration<u64>>],
) -> Result<Answer, Refusal> {
    let (_, answer) = Check::open(&Line { on }, &Below { limit }, table)?;
    Ok(answer)
}

// What is settled at once, and the greatest table.
#[test]
fn opens(rt: HostRuntime) -> Result<(), Fail> {
    assert_eq!(rt;
        opened(true, 4, &mut [blank(); 1]),
        Ok(told(Verdict::Working, 1, 1))
    );
    assert_eq!(rt; opened(true, 4, &mut []), Ok(told(Verdict::Full, 0, 0)));
    assert_eq!(rt; opened(false, 0, &mut []), Ok(told(Verdict::Pass, 0, 0)));
    assert_eq!(rt; opened(true, 0, &mut []), Ok(told(Verdict::Fail, 1, 0)));
    let mut table = vec![in rt.alloc(); blank(); 1_000_001]?;
    assert_eq!(rt;
        opened(true, 4, &mut table),
        Err(refusal(Cause::Large, 1_000_001))
    );
    let _ = table.pop();
    assert_eq!(rt;
        opened(true, 4, &mut table),
        Ok(told(Verdict::Working, 1, 1))
    );
    Ok(())
}

// Grants a unit for each of the answers.
fn unit_by_unit(
    rt: &impl Abort,
    check: &mut Check,
    watch: &Below,
    table: &mut [Record<Configuration<u64>>],
    answers: &[Answer],
) {
    for answer in answers {
        assert_eq!(rt; check.work(&LINE, watch, table, 1), Ok(*answer));
    }
}

// Four levels of one configuration each: a unit looks through a level, and the next one extends it. All units at once
// come to the same.
#[test]
fn passes(rt: HostRuntime) -> Result<(), Fail> {
    let watch = Below { limit: 4 };
    let mut table = [blank(); 8];
    let (mut check, _) = Check::open(&LINE, &watch, &mut table)?;
    let answers = [
        told(Verdict::Working, 2, 1),
        told(Verdict::Working, 2, 2),
        told(Verdict::Working, 3, 2),
        told(Verdict::Working, 3, 3),
        told(Verdict::Working, 4, 3),
        told(Verdict::Working, 4, 4),
        told(Verdict::Working, 5, 4),
        told(Verdict::Pass, 0, 4),
        told(Verdict::Pass, 0, 4),
    ];
    unit_by_unit(&rt, &mut check, &watch, &mut table, &answers);
    assert_eq!(rt; check.shown_state(&table, 0), Err(refusal(Cause::NoRun, 0)));
    assert_eq!(rt;
        check.restart(&LINE, &watch, &mut table),
        Ok(told(Verdict::Working, 1, 1))
    );
    assert_eq!(rt;
        check.work(&LINE, &watch, &mut table, 100),
        Ok(told(Verdict::Pass, 0, 4))
    );
    Ok(())
}

// The third unit meets code 2, whose label is not below 2. With the limit 0 the start itself is not permitted.
#[test]
fn fails_with_a_run(rt: HostRuntime) -> Result<(), Fail> {
    let watch = Below { limit: 2 };
    let mut table = [blank(); 8];
    let (mut check, _) = Check::open(&LINE, &watch, &mut table)?;
    assert_eq!(rt;
        check.work(&LINE, &watch, &mut table, 2),
        Ok(told(Verdict::Working, 2, 2))
    );
    assert_eq!(rt;
        check.work(&LINE, &watch, &mut table, 1),
        Ok(told(Verdict::Fail, 3, 2))
    );
    assert_eq!(rt; check.shown_state(&table, 0), Ok(0));
    assert_eq!(rt; check.shown_state(&table, 1), Ok(1));
    assert_eq!(rt; check.shown_state(&table, 2), Ok(2));
    assert_eq!(rt;
        check.shown_state(&table, 3),
        Err(refusal(Cause::Beyond, 3))
    );
    let mut short = [9; 2];
    assert_eq!(rt; check.shown_run(&table, &mut short), Ok(3));
    assert_eq!(rt; short, [0, 1]);
    let mut whole = [9; 3];
    assert_eq!(rt; check.shown_run(&table, &mut whole), Ok(3));
    assert_eq!(rt; whole, [0, 1, 2]);
    let mut long = [9; 5];
    assert_eq!(rt; check.shown_run(&table, &mut long), Ok(3));
    assert_eq!(rt; long, [0, 1, 2, 9, 9]);
    let (start, _) = Check::open(&LINE, &Below { limit: 0 }, &mut table)?;
    assert_eq!(rt; start.shown_state(&table, 0), Ok(0));
    assert_eq!(rt;
        start.shown_state(&table, 1),
        Err(refusal(Cause::Beyond, 1))
    );
    Ok(())
}

// The fourth unit finds no place for the third configuration.
#[test]
fn is_full(rt: HostRuntime) -> Result<(), Fail> {
    let watch = Below { limit: 4 };
    let mut table = [blank(); 2];
    let (mut check, _) = Check::open(&LINE, &watch, &mut table)?;
    assert_eq!(rt;
        check.work(&LINE, &watch, &mut table, 3),
        Ok(told(Verdict::Working, 3, 2))
    );
    assert_eq!(rt;
        check.work(&LINE, &watch, &mut table, 1),
        Ok(told(Verdict::Full, 0, 2))
    );
    Ok(())
}

// A table of another length is turned away before all else, and the check goes on as if it had not been called.
#[test]
fn keeps_to_its_table(rt: HostRuntime) -> Result<(), Fail> {
    let watch = Below { limit: 4 };
    let mut table = [blank(); 8];
    let mut other = [blank(); 7];
    let misfit = refusal(Cause::Misfit, 7);
    let (mut check, _) = Check::open(&LINE, &watch, &mut table)?;
    assert_eq!(rt; check.work(&LINE, &watch, &mut other, 1), Err(misfit));
    assert_eq!(rt; check.restart(&LINE, &watch, &mut other), Err(misfit));
    assert_eq!(rt; check.shown_state(&other, 0), Err(misfit));
    assert_eq!(rt; check.shown_run(&other, &mut [9; 1]), Err(misfit));
    assert_eq!(rt; check.verdict(), told(Verdict::Working, 1, 1));
    assert_eq!(rt;
        check.work(&LINE, &watch, &mut table, 7),
        Ok(told(Verdict::Working, 5, 4))
    );
    Ok(())
}

fn asked(call: Call, places: usize) -> Asked {
    Asked { call, places }
}

// Each call has its own number of places, and a reply without a call stays as it was.
#[test]
fn replays(rt: HostRuntime) -> Result<(), Fail> {
    let calls = [
        asked(Call::Work(2), 8),
        asked(Call::Work(1), 7),
        asked(Call::Shown(0), 8),
        asked(Call::Work(1), 9),
        asked(Call::Shown(2), 8),
        asked(Call::Open, 1),
        asked(Call::Work(9), 1),
        asked(Call::Verdict, 0),
    ];
    let replies = [
        Ok(Reply::Told(told(Verdict::Working, 2, 2))),
        Err(refusal(Cause::Misfit, 7)),
        Err(refusal(Cause::NoRun, 0)),
        Ok(Reply::Told(told(Verdict::Fail, 3, 2))),
        Ok(Reply::Code(2)),
        Ok(Reply::Told(told(Verdict::Working, 1, 1))),
        Ok(Reply::Told(told(Verdict::Full, 0, 1))),
        Ok(Reply::Told(told(Verdict::Full, 0, 1))),
        Ok(Reply::Code(9)),
    ];
    let mut got = [Ok(Reply::Code(9)); 9];
    let mut table = [blank(); 8];
    let answer = replay(&LINE, &Below { limit: 2 }, &mut table, 8, &calls, &mut got);
    assert_eq!(rt; answer, Ok(told(Verdict::Working, 1, 1)));
    assert_eq!(rt; got, replies);
    Ok(())
}
