// One case of a check: its name, the six numbers of the answer and, where the list is accepted, the tick and the slot of each draw.
ghost use Rattle.std.specs.Prelude.{◌≤◌, length};

use crate::make::put_list;
use rules::{Answer, Event};
use std::fmt::Display;
use std::io;
use std::io::Write;

pub fn say_answer<W: Write>(out: &mut W, name: &str, answer: Answer) -> io::Result<()> {
    let Answer {
        number,
        detail,
        elapsed,
        waits,
        loads,
        longest,
    } = answer;
    write!(
        out,
        "{name}: {number} {detail} {elapsed} {waits} {loads} {longest}"
    )
}

// What was written of one kind, in as many of the lent places as there are draws.
fn say_each<W: Write, T: Display>(
    out: &mut W,
    kind: &str,
    draws: u16,
    lent: &[T],
) -> io::Result<()> {
    write!(out, "; {kind}")?;
    for value in lent.iter().take(usize::from(draws)) {
        write!(out, " {value}")?;
    }
    Ok(())
}

// In the places that are lent here.
pub fn check_in<W: Write>(
    out: &mut W,
    name: &str,
    job: &[u8],
    list: &[u8],
    rounds: u32,
    ticks: &mut [u32],
    slots: &mut [u8],
) -> io::Result<()> {
    let checked = checker::check_draws(job, list, rounds, ticks, slots);
    say_answer(out, name, checked.answer)?;
    if checked.answer.number == 0 {
        say_each(out, "ticks", checked.draws, ticks)?;
        say_each(out, "slots", checked.draws, slots)?;
    }
    writeln!(out)
}

// The same in places for the most draws.
pub fn check_rounds<W: Write>(
    out: &mut W,
    name: &str,
    job: &[u8],
    list: &[u8],
    rounds: u32,
) -> io::Result<()> {
    let mut ticks = [0u32; 4096];
    let mut slots = [0u8; 4096];
    check_in(out, name, job, list, rounds, &mut ticks, &mut slots)
}

// The same of a sheet that is drawn once.
pub fn check_list<W: Write>(out: &mut W, name: &str, job: &[u8], list: &[u8]) -> io::Result<()> {
    check_rounds(out, name, job, list, 1)
}

// A list of up to two events.
pub fn check_events<W: Write>(
    out: &mut W,
    name: &str,
    job: &[u8],
    events: &[Event],
) -> io::Result<()>
    requires { length events.now ≤ 2 }
{
    let mut room = [0u8; 21];
    check_list(out, name, job, put_list(&mut room, events))
}
