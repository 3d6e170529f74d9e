// Reading what a call asks about, a job and its rounds: its size or its one refusal, and its starting symbols.
ghost use Rattle.std.specs.Prelude.{◌≡◌, ◌+◌, ◌*◌};
ghost use Rattle.rules.specs.Basics.{number16};
ghost use Rattle.rules.specs.Job.{call, shape_of, starting_symbols, drawn_symbols, starting_at};
ghost use Rattle.sheet.specs.Row.{row64};
ghost use Rattle.rules.specs.Refusals.{read_call, call_number, bad_job_length, bad_job_version, bad_limits, bad_job_size, bad_symbols, bad_rounds};

use crate::number::{byte_at, number16_at, number32_at};
use crate::rounds::{all_draws, in_rounds};
use crate::row::{doubled_in, stands_in};
use rules::{FREE, MOST_DRAWS, MOST_LOAD_TIME, MOST_SLOTS, Refusal, Shape, Unrolled};

fn shape_of(job: &[u8]) -> Shape
    ensures { result ≡ shape_of job.now }
{
    Shape {
        slots: byte_at(job, 5),
        load_time: number16_at(job, 6),
        draws: number16_at(job, 8),
    }
}

// 1. Under ten bytes, or a length that is not the bytes after it.
fn bad_length(job: &[u8]) -> bool
    ensures { result ≡ bad_job_length job.now }
{
    job.len() < 10 || number32_at(job, 0) as usize != job.len() - 4
}

// 2. A version other than 1.
fn bad_version(job: &[u8]) -> bool
    ensures { result ≡ bad_job_version job.now }
{
    byte_at(job, 4) != 1
}

// 3. Slots, load time or draws outside their limits.
fn bad_limits(job: &[u8]) -> bool
    ensures { result ≡ bad_limits (shape_of job.now) }
{
    let Shape {
        slots,
        load_time,
        draws,
    } = shape_of(job);
    !matches!(
        (slots, load_time, draws),
        (1..=MOST_SLOTS, 1..=MOST_LOAD_TIME, 0..=MOST_DRAWS)
    )
}

// 4. A length other than 6 + 2k + 2n.
fn bad_size(job: &[u8]) -> bool
    ensures { result ≡ bad_job_size job.now }
{
    let shape = shape_of(job);
    number32_at(job, 0) != 6 + 2 * shape.slots as u32 + 2 * shape.draws as u32
}

// 5. A symbol in two starting slots, or the mark of a free slot among the draws.
fn bad_symbols(job: &[u8]) -> bool
    ensures { result ≡ bad_symbols (starting_symbols job.now) (drawn_symbols job.now) }
{
    let shape = shape_of(job);
    doubled_in(job, 10, shape.slots as u16)
        || stands_in(job, 10 + 2 * shape.slots as u32, shape.draws, FREE)
}

// 17. No round, or more draws in all rounds than a job may have.
#[tactic(auto, unfolding(rules::specs::Refusals::bad_rounds))]
fn bad_rounds(job: &[u8], rounds: u32) -> bool
    ensures { result ≡ bad_rounds (call job.now rounds) }
{
    rounds < 1 || (MOST_DRAWS as u64) < all_draws(rounds, shape_of(job).draws)
}

// The size of what a call asks about, or the first refusal of 1 to 5 and 17 that it meets.
pub fn read_call(job: &[u8], rounds: u32) -> Result<Unrolled, Refusal>
    ensures { result ≡ read_call (call job.now rounds) }
{
    if bad_length(job) {
        return Err(Refusal::JobLength);
    }
    if bad_version(job) {
        return Err(Refusal::JobVersion);
    }
    if bad_limits(job) {
        return Err(Refusal::JobLimits);
    }
    if bad_size(job) {
        return Err(Refusal::JobSize);
    }
    if bad_symbols(job) {
        return Err(Refusal::JobSymbols);
    }
    if bad_rounds(job, rounds) {
        return Err(Refusal::Rounds);
    }
    Ok(in_rounds(shape_of(job), rounds))
}

// What a slot of the job holds at the start.
pub fn starting_symbol(job: &[u8], slot: u8) -> u16
    ensures { result ≡ number16 job.now (starting_at + 2 * slot) }
{
    number16_at(job, 10 + 2 * slot as usize)
}

// What each of the 64 slots of a display holds at the start of a job of this many slots.
#[tactic(auto, using(crate::proofs::Rows::row_more))]
pub fn starting_slots(job: &[u8], slots: u8) -> [u16; MOST_SLOTS as usize]
    ensures { result ≡ row64 slots job.now }
{
    let mut row = [FREE; MOST_SLOTS as usize];
    for slot in 0..slots.min(MOST_SLOTS) {
        row[slot as usize] = starting_symbol(job, slot);
    }
    row
}

// Document 01's number for what reading a call found, where its refusal is given by number; 0 where it was taken.
pub fn call_number(reading: Result<Unrolled, u32>) -> u32
    ensures { result ≡ call_number reading }
{
    match reading {
        Ok(_) => 0,
        Err(number) => number,
    }
}
