// Writes the load list of a plan for a job on standard output. Arguments: the plan's name, the job's file and, where the sheet is
// drawn more than once, the number of rounds. A refused job gets the line of its refusal on standard error, and no list.
#![tactic(auto)]

use report::{JOB_ROOM, LONGEST_LIST, Refused};
use rules::Plan;
use std::alloc::Global;
use std::io::Write;
use std::rt::Env;

// Of the room as much is written as the list of the loads takes.
fn write_list<O: Write, E: Write>(
    alloc: Global,
    out: &mut O,
    err: &mut E,
    job: &[u8],
    plan: Plan,
    rounds: u32,
) {
    let mut room = [0u8; LONGEST_LIST];
    let answer = planner::plan(job, plan_report::number_of(plan), rounds, &mut room);
    if let Some(refused) = Refused::of(answer.number, answer.detail) {
        let _ = writeln!(err, "{refused}");
        return;
    }
    let end = sheet::list_size(answer.loads).min(room.len());
    if let Err(error) = out.write_all(&room[..end]) {
        report::say_failure(alloc, err, b"cannot write the list", &error);
    }
}

// The plan and the number of rounds, where the arguments are a plan, a file and nothing or that number.
fn plan_and_rounds<E: Env>(rt: &E) -> Option<(Plan, u32)> {
    if !report::has_argument(rt, 2) || report::has_argument(rt, 4) {
        return None;
    }
    let plan = plan_report::plan_argument(rt, 1)?;
    let rounds = report::rounds_argument(rt, 3)?;
    Some((plan, rounds))
}

fn main(rt: HostRuntime) {
    let mut err = rt.stderr();
    let Some((plan, rounds)) = plan_and_rounds(&rt) else {
        let _ = writeln!(
            err,
            "write: plan_sheet aggressive|conservative|opt|lru JOB [ROUNDS]"
        );
        return;
    };
    let mut room = [0u8; JOB_ROOM];
    let Some(job) = report::read_argument(&rt, &mut err, 2, b"job", &mut room) else {
        return;
    };
    write_list(rt.alloc(), &mut rt.stdout(), &mut err, job, plan, rounds);
}
