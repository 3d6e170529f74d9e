// The check of a list against a job: every refusal in its order, then the run, whose draws are handed out only where it is accepted.
ghost use Rattle.std.specs.Prelude.{◌≡◌, ◌||◌, length, ltb};
ghost use Rattle.rules.specs.Job.{call};
ghost use Rattle.rules.specs.Refusals.{checked, answer_of, ticks_of, slots_of, lent};
ghost use Rattle.checker.specs.Follow.{HasRoom, HandedOut, call_of, runs_along};

use crate::checked::{Checked, answered};
use crate::copy::copy_draws;
use crate::job::TakenJob;
use crate::run::run_list;
use display::Display;
use rules::{Answer, MOST_DRAWS, Refusal};
use sheet::LoadList;

// 7. There are fewer places than draws in the buffer for ticks or in the one for slots.
fn short_room(draws: u16, ticks: usize, slots: usize) -> bool
    ensures { result ≡ (ltb ticks draws || ltb slots draws) }
{
    if ticks < draws as usize {
        return true;
    }
    slots < draws as usize
}

// The run of a list that is in order, with its draws handed out where it is accepted.
fn hand_out(
    job: TakenJob<'_>,
    list: LoadList<'_>,
    ticks: &mut [u32],
    slots: &mut [u8],
) -> Result<Display, Refusal>
    requires { HasRoom job.shape ticks.old slots.old }
    ensures { HandedOut (runs_along (call_of job.entry) list.entry.count list.entry.bytes.now) result ticks.old ticks.new slots.old slots.new }
{
    let mut at = [0u32; MOST_DRAWS as usize];
    let mut from = [0u8; MOST_DRAWS as usize];
    let k = job.shape.slots;
    let mut held = sheet::starting_slots(job.bytes, k);
    let d = run_list(job, list, &mut held[..k as usize], &mut at, &mut from)?;
    copy_draws(ticks, slots, &at, &from, d.next);
    Ok(d)
}

// Every refusal of a check in its order, then the run.
fn run_check(
    job: &[u8],
    list: &[u8],
    rounds: u32,
    ticks: &mut [u32],
    slots: &mut [u8],
) -> Result<Display, Refusal>
    ensures { HandedOut (checked (call job.now rounds) list.now (length ticks.old) (length slots.old)) result ticks.old ticks.new slots.old slots.new }
{
    let job = TakenJob::read(job, rounds)?;
    let list = LoadList::read(list)?;
    if short_room(job.shape.draws, ticks.len(), slots.len()) {
        return Err(Refusal::ShortRoom);
    }
    list.check_ticks()?;
    hand_out(job, list, ticks, slots)
}

// The check with the number of draws that it reports, for a host that has to know how much of the buffers was written.
pub fn check_draws(
    job: &[u8],
    list: &[u8],
    rounds: u32,
    ticks: &mut [u32],
    slots: &mut [u8],
) -> Checked
    ensures answer { result.answer ≡ answer_of (checked (call job.now rounds) list.now (length ticks.old) (length slots.old)) }
    ensures draws { result.draws ≡ length (ticks_of (checked (call job.now rounds) list.now (length ticks.old) (length slots.old))) }
    ensures ticks { ticks.new ≡ lent (ticks_of (checked (call job.now rounds) list.now (length ticks.old) (length slots.old))) ticks.old }
    ensures slots { slots.new ≡ lent (slots_of (checked (call job.now rounds) list.now (length ticks.old) (length slots.old))) slots.old }
{
    let ended = run_check(job, list, rounds, ticks, slots);
    answered(ended)
}

// The answer to a list for this many rounds of a job. Where it is accepted, the two buffers hold the tick and the slot of each draw, and what comes after
// them is as it was; where it is refused, both buffers are as they were.
pub fn check(job: &[u8], list: &[u8], rounds: u32, ticks: &mut [u32], slots: &mut [u8]) -> Answer
    ensures answer { result ≡ answer_of (checked (call job.now rounds) list.now (length ticks.old) (length slots.old)) }
    ensures ticks { ticks.new ≡ lent (ticks_of (checked (call job.now rounds) list.now (length ticks.old) (length slots.old))) ticks.old }
    ensures slots { slots.new ≡ lent (slots_of (checked (call job.now rounds) list.now (length ticks.old) (length slots.old))) slots.old }
{
    let told = check_draws(job, list, rounds, ticks, slots);
    told.answer
}
