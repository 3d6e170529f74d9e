// A tick of the display along a load list: what the list asks for, and the three steps.
ghost use Rattle.std.specs.Prelude.{◌≡◌, drop};
ghost use Rattle.rules.specs.Job.{job_of};
ghost use Rattle.rules.specs.Refusals.{due, follow};
ghost use Rattle.display.specs.Tick.{Ticks, Recorded};
ghost use Rattle.checker.specs.Follow.{MayTick, call_of, events_along};

use crate::job::TakenJob;
use display::{Display, Ticked, land, rest_of_tick};
use rules::{Load, Refusal};
use sheet::LoadList;

// What the list asks for in this tick, when this many of its loads have begun.
pub fn asked_of(list: LoadList<'_>, loads: u32, tick: u32) -> Option<Load>
    ensures { result ≡ due (drop loads (events_along list.entry.count list.entry.bytes.now)) tick }
{
    if list.count as u32 <= loads {
        return None;
    }
    let event = list.event(loads as u16);
    if event.tick == tick {
        return Some(Load {
            slot: event.slot,
            symbol: event.symbol,
        });
    }
    None
}

// One tick along the list, while draws remain: land, begin what the list asks for, then draw or wait. It stands in line in the turn, so
// that no tick copies the job, the list and the display through memory.
#[inline(always)]
pub fn follow_tick(
    job: TakenJob<'_>,
    list: LoadList<'_>,
    held: &mut [u16],
    d: Display,
) -> Result<Ticked, Refusal>
    requires { MayTick job.shape held.old d }
    ensures ticks { Ticks (job_of (call_of job.entry)) (follow (events_along list.entry.count list.entry.bytes.now)) held.old held.new d result }
    ensures recorded { Recorded (job_of (call_of job.entry)) (follow (events_along list.entry.count list.entry.bytes.now)) held.old d result }
{
    let landed = land(held, d);
    let asked = asked_of(list, landed.loads, landed.tick);
    let symbol = sheet::draw_symbol(job.bytes, job.shape, landed.next);
    let done = list.count as u32 <= landed.loads;
    rest_of_tick(held, landed, job.shape.load_time, asked, symbol, done)
}
