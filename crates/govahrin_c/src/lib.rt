// The archive libgovahrin.a: the functions of crates/govahrin for a C host, by the same names and with the same clauses. A slice is passed
// as a pointer and then a length. Nothing is decided here.
#![tactic(auto)]

ghost use Rattle.std.specs.Prelude.{◌≡◌, length};
ghost use Rattle.rules.specs.Job.{call};
ghost use Rattle.rules.specs.Why.{why, plain_reason};
ghost use Rattle.rules.specs.Text.{write_text, read_text, written_of, bytes_of};
ghost use Rattle.rules.specs.Refusals.{checked_for_c, planned, answer_of, ticks_of, slots_of, tick_bytes, written_by, lent};

use rules::{Answer, PlainReason, Written};

// The plan of this many rounds of a job, its list written into the room.
#[unsafe(no_mangle)]
pub extern "C" fn govahrin_plan(job: &[u8], plan: u32, rounds: u32, room: &mut [u8]) -> Answer
    ensures answers { result ≡ answer_of (planned (call job.now rounds) plan (length room.old)) }
    ensures writes { room.new ≡ lent (written_by (planned (call job.now rounds) plan (length room.old))) room.old }
{
    govahrin::govahrin_plan(job, plan, rounds, room)
}

// The check of a list against this many rounds of a job, its ticks four big-endian bytes each.
#[unsafe(no_mangle)]
pub extern "C" fn govahrin_check(
    job: &[u8],
    list: &[u8],
    rounds: u32,
    ticks: &mut [u8],
    slots: &mut [u8],
) -> Answer
    ensures answer { result ≡ answer_of (checked_for_c (call job.now rounds) list.now (length ticks.old) (length slots.old)) }
    ensures ticks { ticks.new ≡ lent (tick_bytes (ticks_of (checked_for_c (call job.now rounds) list.now (length ticks.old) (length slots.old)))) ticks.old }
    ensures slots { slots.new ≡ lent (slots_of (checked_for_c (call job.now rounds) list.now (length ticks.old) (length slots.old))) slots.old }
{
    govahrin::govahrin_check(job, list, rounds, ticks, slots)
}

// Why a draw of a list for this many rounds of a job waited. No room is lent.
#[unsafe(no_mangle)]
pub extern "C" fn govahrin_why(job: &[u8], list: &[u8], draw: u32, rounds: u32) -> PlainReason
    ensures { result ≡ plain_reason (why (call job.now rounds) list.now draw) }
{
    govahrin::govahrin_why(job, list, draw, rounds)
}

// The text of a load list, written into the lent room.
#[unsafe(no_mangle)]
pub extern "C" fn govahrin_write_text(list: &[u8], text: &mut [u8]) -> Written
    ensures answers { result ≡ written_of (write_text list.now (length text.old)) }
    ensures writes { text.new ≡ lent (bytes_of (write_text list.now (length text.old))) text.old }
{
    govahrin::govahrin_write_text(list, text)
}

// The load list of a text, written into the lent room.
#[unsafe(no_mangle)]
pub extern "C" fn govahrin_read_text(text: &[u8], list: &mut [u8]) -> Written
    ensures answers { result ≡ written_of (read_text text.now (length list.old)) }
    ensures writes { list.new ≡ lent (bytes_of (read_text text.now (length list.old))) list.old }
{
    govahrin::govahrin_read_text(text, list)
}
