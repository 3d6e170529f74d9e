// Checks a load list against a job. Arguments: the files of the two and, where the sheet is drawn more than once, the number of
// rounds. It prints `accepted`, elapsed, waits, loads and the longest single wait, and then a line for each draw of all rounds, with
// its symbol, its tick and its slot; or `refused`, the number and the detail, and a line in words.
#![tactic(auto)]

use report::{InWords, JOB_ROOM, LIST_ROOM, Refused};
use std::io;
use std::io::Write;
use std::rt::Env;

// Each of these answers whether all of it was written; the first write that fails is the last that is tried.
fn print_draws<W: Write>(
    out: &mut W,
    job: &[u8],
    rounds: u32,
    ticks: &[u32],
    slots: &[u8],
) -> io::Result<()> {
    let Ok(shape) = sheet::read_call(job, rounds) else {
        return Ok(());
    };
    for (draw, (tick, slot)) in (0..shape.draws).zip(ticks.iter().zip(slots)) {
        let symbol = sheet::draw_symbol(job, shape, draw);
        writeln!(out, "{draw} {symbol} {tick} {slot}")?;
    }
    Ok(())
}

fn print_check<W: Write>(out: &mut W, job: &[u8], list: &[u8], rounds: u32) -> io::Result<()> {
    let mut ticks = [0u32; 4096];
    let mut slots = [0u8; 4096];
    let answer = checker::check(job, list, rounds, &mut ticks, &mut slots);
    if let Some(refused) = Refused::of(answer.number, answer.detail) {
        return writeln!(out, "{refused}\n{}", InWords(refused));
    }
    writeln!(
        out,
        "accepted {} {} {} {}",
        answer.elapsed, answer.waits, answer.loads, answer.longest
    )?;
    print_draws(out, job, rounds, &ticks, &slots)
}

// The number of rounds, where the arguments are two files and nothing or that number.
fn rounds_asked<E: Env>(rt: &E) -> Option<u32> {
    if !report::has_argument(rt, 2) || report::has_argument(rt, 4) {
        return None;
    }
    report::rounds_argument(rt, 3)
}

fn main(rt: HostRuntime) {
    let mut err = rt.stderr();
    let Some(rounds) = rounds_asked(&rt) else {
        let _ = writeln!(err, "write: check_sheet JOB LIST [ROUNDS]");
        return;
    };
    let mut job_room = [0u8; JOB_ROOM];
    let mut list_room = [0u8; LIST_ROOM];
    let Some((job, list)) = report::read_sheet(&rt, &mut err, &mut job_room, &mut list_room) else {
        return;
    };
    if let Err(error) = print_check(&mut rt.stdout(), job, list, rounds) {
        report::say_failure(rt.alloc(), &mut err, b"cannot write the answer", &error);
    }
}
