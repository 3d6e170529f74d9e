// The worked cases of document 01, built in: checks and plans of its rows, every edge that it names, where the longest wait can be,
// symbols that are never drawn again (document 02, "Four"), a case for each refusal number, the largest job, sheets that are redrawn
// (document 02, "Five"), and lists as text (document 02, "Three"). Each is a line, and `stdout` has what every line must be.
#![tactic(auto)]

mod check_case;
mod checks;
mod make;
mod plan_case;
mod plans;
mod rounds;
mod text_case;
mod texts;

use std::io;
use std::io::Write;

fn print_checks<W: Write>(out: &mut W) -> io::Result<()> {
    checks::rows(out)?;
    checks::edges(out)?;
    checks::pauses(out)?;
    checks::refused_jobs(out)?;
    checks::refused_lists(out)?;
    checks::refused_runs(out)?;
    checks::short_rooms(out)
}

fn print_plans<W: Write>(out: &mut W) -> io::Result<()> {
    plans::rows(out)?;
    plans::ties(out)?;
    plans::refused_jobs(out)?;
    plans::refused_calls(out)?;
    plans::largest(out)
}

fn print_rounds<W: Write>(out: &mut W) -> io::Result<()> {
    rounds::plans(out)?;
    rounds::rooms(out)?;
    rounds::checks(out)?;
    rounds::refused_plans(out)?;
    rounds::refused_checks(out)?;
    rounds::too_long(out)
}

fn print_texts<W: Write>(out: &mut W) -> io::Result<()> {
    texts::written(out)?;
    texts::refused_lists(out)?;
    texts::read(out)?;
    texts::refused_texts(out)
}

fn main(rt: HostRuntime) -> io::Result<()> {
    let mut out = rt.stdout();
    print_checks(&mut out)?;
    print_plans(&mut out)?;
    print_rounds(&mut out)?;
    print_texts(&mut out)
}
