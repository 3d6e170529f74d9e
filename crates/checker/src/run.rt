// The run of a display along a load list: with its draws noted, or with the account of one of them.
ghost use Rattle.std.specs.Prelude.{◌≡◌, ◌<◌, length};
ghost use Rattle.rules.specs.Job.{draws_of, job_of, starting_symbols};
ghost use Rattle.checker.specs.Follow.{noted, MayRun, Noted, call_of, events_along, runs_along};
ghost use Rattle.checker.specs.Turn.{MayTurn, Turned};
ghost use Rattle.checker.specs.Accounts.{RanSo};

use crate::account::{going_out, turn_told, untold};
use crate::checked::finish;
use crate::follow::follow_tick;
use crate::job::TakenJob;
use crate::rest::after_waits;
use display::{Display, start};
use rules::{Account, Happening, LAST_TICK, Refusal, TickRecord};
use sheet::LoadList;

// A turn of the run: the tick on record, and the display after the waits that follow it.
#[derive(Clone, Copy)]
struct Turn {
    on_record: TickRecord,
    later: Display,
}

// The turn from this display on, or none where every draw is made and no event is left. It stands in line in both runs, so that the display of a
// turn is not copied through memory.
#[inline(always)]
fn take_turn(
    job: TakenJob<'_>,
    list: LoadList<'_>,
    held: &mut [u16],
    d: Display,
) -> Result<Option<Turn>, Refusal>
    requires { MayTurn job held.old d }
    ensures { Turned (job_of (call_of job.entry)) (events_along list.entry.count list.entry.bytes.now) held.old held.new d result }
{
    let limit = LAST_TICK + 1 + job.shape.load_time as u32 + job.shape.draws as u32;
    let draw = d.next;
    if job.shape.draws <= draw {
        finish(d, list.count)?;
        return Ok(None);
    }
    if limit <= d.tick {
        return Err(Refusal::EndlessWait { draw: draw as u32 });
    }
    let ticked = follow_tick(job, list, held, d)?;
    let on_record = ticked.on_record;
    let later = after_waits(list, ticked.display, on_record.happening, limit);
    Ok(Some(Turn { on_record, later }))
}

// Notes a draw in both buffers; a wait leaves them as they are.
fn note(ticks: &mut [u32], slots: &mut [u8], draw: u16, tick: u32, happening: Happening)
    requires { (draw < length ticks.old) × (draw < length slots.old) }
    ensures ticks { ticks.new ≡ noted happening (λ q. tick) draw ticks.old }
    ensures slots { slots.new ≡ noted happening (λ q. q) draw slots.old }
{
    if let Happening::Draw { slot } = happening {
        let at = draw as usize;
        ticks[at] = tick;
        slots[at] = slot;
    }
}

// The run of the whole list from the slots as they start, with the draws noted in the two buffers. It answers the display at its end.
pub fn run_list(
    job: TakenJob<'_>,
    list: LoadList<'_>,
    held: &mut [u16],
    ticks: &mut [u32],
    slots: &mut [u8],
) -> Result<Display, Refusal>
    requires { MayRun job held.old ticks.old slots.old }
    ensures { Noted (length (draws_of (call_of job.entry))) (runs_along (call_of job.entry) list.entry.count list.entry.bytes.now) result ticks.new slots.new }
{
    let mut d = start();
    while let Some(turn) = take_turn(job, list, held, d)? {
        note(ticks, slots, d.next, d.tick, turn.on_record.happening);
        d = turn.later;
    }
    Ok(d)
}

// The same run with the account of a draw, which is of this symbol. No draw is noted.
pub fn run_told(
    job: TakenJob<'_>,
    list: LoadList<'_>,
    held: &mut [u16],
    asked: u32,
    symbol: u16,
) -> Result<Account, Refusal>
    requires { held.old ≡ starting_symbols job.bytes.now }
    ensures { RanSo (job_of (call_of job.entry)) (events_along list.entry.count list.entry.bytes.now) asked symbol result }
{
    let mut d = start();
    let mut account = untold();
    loop {
        let out = going_out(list, held, d);
        let Some(turn) = take_turn(job, list, held, d)? else {
            return Ok(account);
        };
        let later = turn.later;
        if d.next as u32 <= asked {
            account = turn_told(account, asked, symbol, d, out, turn.on_record, later.tick);
        }
        d = later;
    }
}
