// A plan of a job: its refusals in their order, its run, and its list in the lent room.
ghost use Rattle.std.specs.Prelude.{◌≡◌, ◌+◌, ◌*◌, length, ltb, Ok};
ghost use Rattle.rules.specs.Job.{call, most_draws};
ghost use Rattle.rules.specs.LoadList.{head_size, event_size};
ghost use Rattle.rules.specs.Refusals.{read_call, planned, answer_of, written_by, lent};
ghost use Rattle.rules.specs.Plans.{plan_number};
ghost use Rattle.planner.specs.Runs.{HasPlaces, Prepared, Ended, PlanOf, ComesTo};

use crate::run::{TakenJob, run_plan};
use crate::write::write_list;
use choice::row_of;
use display::{Display, accepted, refusal, refused};
use rules::{Answer, MOST_DRAWS, Plan, Refusal, Unrolled};

// The run of a plan from the start of the job.
fn run_from_start(
    plan: Plan,
    job: TakenJob<'_>,
    orders: u32,
    loads: &mut [u64],
) -> Result<Display, Refusal>
    requires { Prepared (plan_number plan) (call job.bytes.now job.shape.rounds) orders loads.old }
    ensures { Ended (plan_number plan) (call job.entry.bytes.now job.entry.shape.rounds) result loads.new }
{
    let slots = job.shape.slots;
    let mut held = sheet::starting_slots(job.bytes, slots);
    run_plan(plan, job, &mut held[..slots as usize], orders, loads)
}

// The run of a plan of a job that was taken. Conservative works off the loads of opt, so opt runs first.
fn run_taken(plan: Plan, job: TakenJob<'_>, loads: &mut [u64]) -> Result<Display, Refusal>
    requires { length loads.old ≡ most_draws }
    ensures { Ended (plan_number plan) (call job.entry.bytes.now job.entry.shape.rounds) result loads.new }
{
    let Plan::Conservative = plan else {
        return run_from_start(plan, job, 0, loads);
    };
    let opt = run_from_start(Plan::Opt, job, 0, loads)?;
    run_from_start(plan, job, opt.loads, loads)
}

// The same, with the draws of the job copied into a row.
fn run_of(plan: Plan, job: &[u8], shape: Unrolled, loads: &mut [u64]) -> Result<Display, Refusal>
    requires { HasPlaces (call job.now shape.rounds) shape loads.old }
    ensures { Ended (plan_number plan) (call job.now shape.rounds) result loads.new }
{
    let all = row_of(job, shape);
    let row = &all[..shape.draws as usize];
    let taken = TakenJob {
        bytes: job,
        shape,
        row,
    };
    run_taken(plan, taken, loads)
}

// 6. No plan has this number.
fn plan_of(number: u32) -> Result<Plan, Refusal>
    ensures { PlanOf number result }
{
    match number {
        0 => Ok(Plan::Aggressive),
        1 => Ok(Plan::Conservative),
        2 => Ok(Plan::Opt),
        3 => Ok(Plan::Lru),
        _ => Err(Refusal::PlanNumber),
    }
}

// 7. The room is too short for a list of as many events as draws.
fn short_room(draws: u16, room: usize) -> bool
    ensures { result ≡ ltb room (head_size + event_size * draws) }
{
    room < sheet::list_size(draws as u32)
}

// The display at the end of the run of a plan of a job that was taken, with the run's list in the room; or the first refusal that is met.
// Nothing is written before the last refusal is past.
fn carry_out(job: &[u8], shape: Unrolled, plan: u32, room: &mut [u8]) -> Result<Display, Refusal>
    requires { read_call (call job.now shape.rounds) ≡ Ok shape }
    ensures comes_to { ComesTo (planned (call job.now shape.rounds) plan (length room.old)) result }
    ensures writes { room.new ≡ lent (written_by (planned (call job.now shape.rounds) plan (length room.old))) room.old }
{
    let plan = plan_of(plan)?;
    if short_room(shape.draws, room.len()) {
        return Err(Refusal::ShortRoom);
    }
    let mut loads = [0; MOST_DRAWS as usize];
    let d = run_of(plan, job, shape, &mut loads)?;
    write_list(room, d.loads as u16, &loads);
    Ok(d)
}

// Plans this many rounds of the job and writes the list from the room's first byte on. Where the plan is refused, the room is as it was.
pub fn plan(job: &[u8], plan: u32, rounds: u32, room: &mut [u8]) -> Answer
    ensures answers { result ≡ answer_of (planned (call job.now rounds) plan (length room.old)) }
    ensures writes { room.new ≡ lent (written_by (planned (call job.now rounds) plan (length room.old))) room.old }
{
    let reading = sheet::read_call(job, rounds);
    let Ok(shape) = reading else {
        return refusal(sheet::call_number(reading.map_err(Refusal::number)), 0);
    };
    match carry_out(job, shape, plan, room) {
        Ok(d) => accepted(d),
        Err(reason) => refused(reason),
    }
}
