// The summary of one round of a job: a line for each plan with its name, elapsed, waits and loads, or the line of the refusal.
use crate::names::{name_of, number_of};
use report::{JOB_ROOM, LONGEST_LIST, Refused};
use rules::Plan;
use std::alloc::Global;
use std::io;
use std::io::{Read, Write};

// A job that one plan refuses all refuse, so the first refusal is the only line; and after a line that could not be written no other is
// tried.
fn print_plans<O: Write>(out: &mut O, job: &[u8]) -> io::Result<()> {
    for plan in [Plan::Aggressive, Plan::Conservative, Plan::Opt, Plan::Lru] {
        let mut room = [0u8; LONGEST_LIST];
        let answer = planner::plan(job, number_of(plan), 1, &mut room);
        if let Some(refused) = Refused::of(answer.number, answer.detail) {
            return writeln!(out, "{refused}");
        }
        writeln!(
            out,
            "{} {} {} {}",
            name_of(plan),
            answer.elapsed,
            answer.waits,
            answer.loads
        )?;
    }
    Ok(())
}

pub fn print_summary<I: Read, O: Write, E: Write>(
    alloc: Global,
    input: &mut I,
    out: &mut O,
    err: &mut E,
) {
    let mut job = [0u8; JOB_ROOM];
    match report::read_full(input, &mut job) {
        Ok(count) => {
            if let Err(error) = print_plans(out, &job[..count]) {
                report::say_failure(alloc, err, b"cannot write the summary", &error);
            }
        }
        Err(error) => report::say_failure(alloc, err, b"cannot read standard input", &error),
    }
}
