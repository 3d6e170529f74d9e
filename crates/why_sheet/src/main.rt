// Tells why draws of a sheet waited, by a load list. Arguments: the files of the job and of the list, the number of rounds and, where
// one draw is asked about, its number. It prints `explained`, and then a line for that draw, or for each draw that waited: the draw,
// its symbol, the event that last brought the symbol or `start`, the event that last took it out of a slot or `none`, and the waits
// while its own symbol was loading, while another was, and while nothing was. Or it prints `refused`, the number and the detail, and a
// line in words.
#![tactic(auto)]

use report::{InWords, JOB_ROOM, LIST_ROOM, Refused};
use rules::{Account, Parts, Refusal, Unrolled};
use std::io;
use std::io::Write;
use std::rt::Env;

// Each of these answers whether all of it was written; the first write that fails is the last that is tried.
fn say_event<W: Write>(out: &mut W, event: Option<u32>, none: &str) -> io::Result<()> {
    match event {
        Some(event) => write!(out, " {event}"),
        None => write!(out, " {none}"),
    }
}

fn print_account<W: Write>(
    out: &mut W,
    draw: u16,
    symbol: u16,
    account: Account,
) -> io::Result<()> {
    let Parts {
        own,
        another,
        nothing,
    } = account.waits;
    write!(out, "{draw} {symbol}")?;
    say_event(out, account.brought, "start")?;
    say_event(out, account.taken, "none")?;
    writeln!(out, " {own} {another} {nothing}")
}

// Each part is asked for itself: nothing here says that their sum has room.
fn has_waited(waits: Parts) -> bool {
    waits.own != 0 || waits.another != 0 || waits.nothing != 0
}

fn print_waited<W: Write>(
    out: &mut W,
    job: &[u8],
    list: &[u8],
    rounds: u32,
    shape: Unrolled,
) -> io::Result<()> {
    for draw in 0..shape.draws {
        let account = checker::why(job, list, u32::from(draw), rounds).account;
        if has_waited(account.waits) {
            print_account(out, draw, sheet::draw_symbol(job, shape, draw), account)?;
        }
    }
    Ok(())
}

// A draw that has an account is one of at most 4,096, so it fits 16 bits.
fn print_one<W: Write>(
    out: &mut W,
    job: &[u8],
    shape: Unrolled,
    draw: u32,
    account: Account,
) -> io::Result<()> {
    let draw = (draw % 65536) as u16;
    print_account(out, draw, sheet::draw_symbol(job, shape, draw), account)
}

// That there is no such draw comes after all refusals of a check. Of draw 0 it says that the list is accepted and the sheet has no draw.
fn print_why<W: Write>(
    out: &mut W,
    job: &[u8],
    list: &[u8],
    rounds: u32,
    draw: Option<u32>,
) -> io::Result<()> {
    let reason = checker::why(job, list, draw.unwrap_or(0), rounds);
    if let Some(refused) = Refused::of(reason.number, reason.detail) {
        if draw.is_some() || refused.number != Refusal::NoSuchDraw.number() {
            return writeln!(out, "{refused}\n{}", InWords(refused));
        }
    }
    writeln!(out, "explained")?;
    let Ok(shape) = sheet::read_call(job, rounds) else {
        return Ok(());
    };
    match draw {
        Some(draw) => print_one(out, job, shape, draw, reason.account),
        None => print_waited(out, job, list, rounds, shape),
    }
}

// The number of rounds and, where one draw is asked about, its number, which is written as a number of rounds is. None where the
// arguments are not two files and these.
fn numbers_asked<E: Env>(rt: &E) -> Option<(u32, Option<u32>)> {
    if !report::has_argument(rt, 3) || report::has_argument(rt, 5) {
        return None;
    }
    let rounds = report::rounds_argument(rt, 3)?;
    if !report::has_argument(rt, 4) {
        return Some((rounds, None));
    }
    let draw = report::rounds_argument(rt, 4)?;
    Some((rounds, Some(draw)))
}

fn main(rt: HostRuntime) {
    let mut err = rt.stderr();
    let Some((rounds, draw)) = numbers_asked(&rt) else {
        let _ = writeln!(err, "write: why_sheet JOB LIST ROUNDS [DRAW]");
        return;
    };
    let mut job_room = [0u8; JOB_ROOM];
    let mut list_room = [0u8; LIST_ROOM];
    let Some((job, list)) = report::read_sheet(&rt, &mut err, &mut job_room, &mut list_room) else {
        return;
    };
    if let Err(error) = print_why(&mut rt.stdout(), job, list, rounds, draw) {
        report::say_failure(rt.alloc(), &mut err, b"cannot write the answer", &error);
    }
}
