// The C surface: plan, check, why a draw waited, and a list as text, over byte slices and plain numbers. Crates use it from here, and a C host
// links the archive that crates/govahrin_c makes of it; `extern "C"` holds every type to what may cross. Here the tick of a draw is four big-endian
// bytes; all else is as in the crates below. No function asks anything of its caller.
#![tactic(auto)]

mod plain;
mod ticks;

ghost use Rattle.std.specs.Prelude.{◌≡◌, ◌≤◌, length};
ghost use Rattle.rules.specs.Job.{call};
ghost use Rattle.govahrin.specs.Reports.{Reports};
ghost use Rattle.rules.specs.Why.{why, plain_reason};
ghost use Rattle.rules.specs.Text.{write_text, read_text, written_of, bytes_of};
ghost use Rattle.rules.specs.Refusals.{checked, checked_for_c, planned, answer_of, ticks_of, slots_of, tick_bytes, written_by, lent};

use checker::Checked;
use plain::plain_reason;
use rules::{Answer, MOST_DRAWS, PlainReason, Written};
use ticks::{put_ticks, tick_places};

// The plan of this many rounds of a job, its list written into the room.
#[unsafe(no_mangle)]
pub extern "C" fn govahrin_plan(job: &[u8], plan: u32, rounds: u32, room: &mut [u8]) -> Answer
    ensures answers { result ≡ answer_of (planned (call job.now rounds) plan (length room.old)) }
    ensures writes { room.new ≡ lent (written_by (planned (call job.now rounds) plan (length room.old))) room.old }
{
    planner::plan(job, plan, rounds, room)
}

// A check whose places for ticks are the first of a row.
fn check_in(
    job: &[u8],
    list: &[u8],
    rounds: u32,
    row: &mut [u32],
    places: usize,
    slots: &mut [u8],
) -> Checked
    requires { places ≤ length row.old }
    ensures { Reports (checked (call job.now rounds) list.now places (length slots.old)) result row.old row.new slots.old slots.new }
{
    checker::check_draws(job, list, rounds, &mut row[..places], slots)
}

// The check of a list against this many rounds of a job. Its ticks are written last, as many as it reports draws.
#[unsafe(no_mangle)]
pub extern "C" fn govahrin_check(
    job: &[u8],
    list: &[u8],
    rounds: u32,
    ticks: &mut [u8],
    slots: &mut [u8],
) -> Answer
    ensures answer { result ≡ answer_of (checked_for_c (call job.now rounds) list.now (length ticks.old) (length slots.old)) }
    ensures ticks { ticks.new ≡ lent (tick_bytes (ticks_of (checked_for_c (call job.now rounds) list.now (length ticks.old) (length slots.old)))) ticks.old }
    ensures slots { slots.new ≡ lent (slots_of (checked_for_c (call job.now rounds) list.now (length ticks.old) (length slots.old))) slots.old }
{
    let mut row = [0u32; MOST_DRAWS as usize];
    let places = tick_places(ticks.len());
    let checked = check_in(job, list, rounds, &mut row, places, slots);
    put_ticks(ticks, &row, checked.draws);
    checked.answer
}

// Why a draw of a list for this many rounds of a job waited. No room is lent.
#[unsafe(no_mangle)]
pub extern "C" fn govahrin_why(job: &[u8], list: &[u8], draw: u32, rounds: u32) -> PlainReason
    ensures { result ≡ plain_reason (why (call job.now rounds) list.now draw) }
{
    plain_reason(checker::why(job, list, draw, rounds))
}

// The text of a load list, written into the lent room.
#[unsafe(no_mangle)]
pub extern "C" fn govahrin_write_text(list: &[u8], text: &mut [u8]) -> Written
    ensures answers { result ≡ written_of (write_text list.now (length text.old)) }
    ensures writes { text.new ≡ lent (bytes_of (write_text list.now (length text.old))) text.old }
{
    text::write_text(list, text)
}

// The load list of a text, written into the lent room.
#[unsafe(no_mangle)]
pub extern "C" fn govahrin_read_text(text: &[u8], list: &mut [u8]) -> Written
    ensures answers { result ≡ written_of (read_text text.now (length list.old)) }
    ensures writes { list.new ≡ lent (bytes_of (read_text text.now (length list.old))) list.old }
{
    text::read_text(text, list)
}
