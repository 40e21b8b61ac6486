// A list of calls, replayed in one table: what each of them answers is true of all runs of the cell.
ghost use Rattle.std.specs.Prelude.{◌≡◌, ℕ, min, length, drop, Result};
ghost use Rattle.checking.specs.Opening.{Opens};
ghost use Rattle.checking.specs.Replay.{History, Keeps, Opened, Responds, Replayed, Replays};

use crate::calls::{Asked, Call, Reply};
use crate::product::Product;
use crate::state::Check;
use model::{Answer, Cell, Configuration, Refusal, Watch};
use store::Record;

// Opens a check; the one before is let go where that succeeds.
fn open<C: Cell, W: Watch>(
    check: &mut Check,
    product: &Product<C, W>,
    table: &mut [Record<Configuration<W::State>>],
) -> Result<Answer, Refusal>
    ensures { (a : Result (Check × Answer) Refusal) × Opens (C.Cell.cell product.now.cell.now) (W.Watch.watch product.now.watch.now) W.State.Key.kind table.old table.new a × Opened a check.old check.new result }
{
    let (opened, answer) = Check::open(product.cell, product.watch, table)?;
    *check = opened;
    Ok(answer)
}

// One call, with its places of the table.
fn respond<C: Cell, W: Watch>(
    check: &mut Check,
    product: &Product<C, W>,
    table: &mut [Record<Configuration<W::State>>],
    asked: &Asked,
) -> Result<Reply, Refusal>
    ensures { Responds (C.Cell.cell product.now.cell.now) (W.Watch.watch product.now.watch.now) W.State.Key.kind asked.now.call (min asked.now.places (length table.old)) check.old check.new table.old table.new result }
{
    let places = asked.places.min(table.len());
    let part = &mut table[..places];
    // A switch: calls are data that a caller lists, and a closure for each would have to be handed out boxed.
    match asked.call {
        Call::Open => open(check, product, part).map(Reply::Told),
        Call::Work(units) => check
            .work(product.cell, product.watch, part, units)
            .map(Reply::Told),
        Call::Restart => check
            .restart(product.cell, product.watch, part)
            .map(Reply::Told),
        Call::Verdict => Ok(Reply::Told(check.verdict())),
        Call::Shown(place) => check.shown_state(part, place).map(Reply::Code),
    }
}

// Makes the calls one after another, as far as there is room for replies.
fn go_on<C: Cell, W: Watch>(
    check: &mut Check,
    product: &Product<C, W>,
    table: &mut [Record<Configuration<W::State>>],
    calls: &[Asked],
    replies: &mut [Result<Reply, Refusal>],
)
    ensures pays { (h : History) → Keeps (C.Cell.cell product.now.cell.now) (W.Watch.watch product.now.watch.now) W.State.Key.kind h check.old table.old → Replayed (C.Cell.cell product.now.cell.now) (W.Watch.watch product.now.watch.now) W.State.Key.kind (length table.old) h calls.now replies.new (length calls.now) }
    ensures rest { drop (length calls.now) replies.new ≡ drop (length calls.now) replies.old }
{
    // By its number: over `iter_mut().zip(calls)` the loop has the pairs so far, not the row; its proof didn't close.
    for (place, reply) in replies.iter_mut().enumerate() {
        let Some(asked) = calls.get(place) else {
            return;
        };
        *reply = respond(check, product, table, asked);
    }
}

// Opens a check with so many places of the table, and then makes the calls one after another, each with its own number
// of places. The replies go into the caller's row. Answers what the opening answered.
pub fn replay<C: Cell, W: Watch>(
    cell: &C,
    watch: &W,
    table: &mut [Record<Configuration<W::State>>],
    places: usize,
    calls: &[Asked],
    replies: &mut [Result<Reply, Refusal>],
) -> Result<Answer, Refusal>
    ensures { Replays (C.Cell.cell cell.now) (W.Watch.watch watch.now) W.State.Key.kind (min places (length table.old)) calls.now table.old table.new replies.old replies.new result }
{
    let places = places.min(table.len());
    let (mut check, answer) = Check::open(cell, watch, &mut table[..places])?;
    go_on(&mut check, &Product { cell, watch }, table, calls, replies);
    Ok(answer)
}
