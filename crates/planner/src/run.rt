// One tick of a plan, and the run of a plan to its end.
ghost use Rattle.std.specs.Prelude.{◌≡◌, Ok};
ghost use Rattle.rules.specs.Job.{call, draws_of};
ghost use Rattle.rules.specs.Refusals.{read_call};
ghost use Rattle.rules.specs.LoadList.{last_tick};
ghost use Rattle.display.specs.Still.{MayRest, Rested};
ghost use Rattle.rules.specs.Plans.{plan_number};
ghost use Rattle.planner.specs.Runs.{BeforeTick, TicksBy, LoadUnderWay, FromStart, Ended};

use crate::loads::{note, order_at};
use choice::{Order, asked_by};
use display::{Display, Ticked, before_end, land, pass_waits, rest_of_tick, smaller, start};
use rules::{Happening, LAST_TICK, Plan, Refusal, Unrolled};

// A job that was taken: its bytes, its size, and the draws of all its rounds in a row.
#[derive(Clone, Copy)]
pub struct TakenJob<'a> {
    pub bytes: &'a [u8],
    pub shape: Unrolled,
    pub row: &'a [u16],
    pub ghost taken: { read_call (call bytes.now shape.rounds) ≡ Ok shape },
    pub ghost drawn: { draws_of (call bytes.now shape.rounds) ≡ row.now },
}

// One tick of a plan, while draws remain: land, begin what the plan asks for, then draw or wait.
fn plan_tick(
    plan: Plan,
    job: TakenJob<'_>,
    held: &mut [u16],
    d: Display,
    order: Option<Order>,
) -> Result<Ticked, Refusal>
    requires { BeforeTick job.shape held.old d }
    ensures { TicksBy (plan_number plan) (call job.entry.bytes.now job.entry.shape.rounds) order held.old held.new d result }
{
    let landed = land(held, d);
    let symbol = sheet::draw_symbol(job.bytes, job.shape, landed.next);
    let asked = asked_by(plan, held, landed, job.row, symbol, order);
    rest_of_tick(held, landed, job.shape.load_time, asked, symbol, true)
}

// The display after the waits that follow a tick in which this happened. While a load is under way no plan asks for anything, so all
// ticks up to the end of the load are passed over at once.
fn after_waits(d: Display, happening: Happening) -> Display
    requires { MayRest last_tick d }
    ensures { Rested (LoadUnderWay d) last_tick happening d result }
{
    match happening {
        Happening::Draw { .. } => d,
        Happening::Wait(_) => pass_waits(d, smaller(LAST_TICK - d.tick, before_end(d))),
    }
}

// The run of a plan from the starting symbols in the slots to its last draw: the display at its end, or refusal 15 where the last tick that
// a list can name comes first. The loads that it begins are noted in `loads`. For conservative the first `orders` loads of that row are
// those of opt: each is read before the load of the same number takes its place.
pub fn run_plan(
    plan: Plan,
    job: TakenJob<'_>,
    held: &mut [u16],
    orders: u32,
    loads: &mut [u64],
) -> Result<Display, Refusal>
    requires { FromStart (plan_number plan) (call job.bytes.now job.shape.rounds) held.old orders loads.old }
    ensures { Ended (plan_number plan) (call job.entry.bytes.now job.entry.shape.rounds) result loads.new }
{
    let mut d = start();
    while d.next < job.shape.draws {
        if LAST_TICK <= d.tick {
            return Err(Refusal::PastTheLastTick);
        }
        let order = order_at(loads, orders, d.loads);
        let Ok(ticked) = plan_tick(plan, job, held, d, order) else {
            return Err(Refusal::PastTheLastTick);
        };
        note(loads, d.loads, d.tick, d.next, ticked.on_record.begun);
        d = after_waits(ticked.display, ticked.on_record.happening);
    }
    Ok(d)
}
