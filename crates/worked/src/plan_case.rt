// One case of a plan: its name, the six numbers of the answer and, where the job is planned, the length of the list in the room.
use crate::check_case::say_answer;
use report::LONGEST_LIST;
use std::io;
use std::io::Write;

// The length is that of the list in these bytes, as the check would read it.
pub fn say_list<W: Write>(out: &mut W, list: &[u8]) -> io::Result<()> {
    match sheet::read_list(list) {
        Some(count) => write!(
            out,
            "; a list of {} bytes",
            sheet::list_size(u32::from(count))
        ),
        None => write!(out, "; no list"),
    }
}

pub fn plan_in<W: Write>(
    out: &mut W,
    room: &mut [u8],
    name: &str,
    job: &[u8],
    plan: u32,
    rounds: u32,
) -> io::Result<()> {
    let answer = planner::plan(job, plan, rounds, room);
    say_answer(out, name, answer)?;
    if answer.number == 0 {
        let end = sheet::list_size(answer.loads).min(room.len());
        say_list(out, &room[..end])?;
    }
    writeln!(out)
}

// The same in the room of the longest list.
pub fn plan_rounds<W: Write>(
    out: &mut W,
    name: &str,
    job: &[u8],
    plan: u32,
    rounds: u32,
) -> io::Result<()> {
    let mut room = [0u8; LONGEST_LIST];
    plan_in(out, &mut room, name, job, plan, rounds)
}

pub fn rounds_by_all<W: Write>(out: &mut W, name: &str, job: &[u8], rounds: u32) -> io::Result<()> {
    for (plan, plan_name) in (0..).zip(["aggressive", "conservative", "opt", "lru"]) {
        write!(out, "{name}, ")?;
        plan_rounds(out, plan_name, job, plan, rounds)?;
    }
    Ok(())
}

// Of a sheet that is drawn once.
pub fn plan_job<W: Write>(out: &mut W, name: &str, job: &[u8], plan: u32) -> io::Result<()> {
    plan_rounds(out, name, job, plan, 1)
}

pub fn plan_by_all<W: Write>(out: &mut W, name: &str, job: &[u8]) -> io::Result<()> {
    rounds_by_all(out, name, job, 1)
}
