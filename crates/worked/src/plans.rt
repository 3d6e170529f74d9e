// The cases of a plan, in groups: the rows, symbols that are never drawn again, what is refused, by number, and the largest job.
use crate::make::{JOB_A, changed, put_job};
use crate::plan_case::{plan_by_all, plan_in, plan_job};
use std::io;
use std::io::Write;

pub fn rows<W: Write>(out: &mut W) -> io::Result<()> {
    plan_by_all(out, "row a", &JOB_A)?;
    plan_by_all(out, "row b", &changed(20, 2))?;
    plan_by_all(
        out,
        "row c",
        b"\x00\x00\x00\x1A\x01\x04\x00\x03\x00\x06\x00\x01\x00\x02\x00\x03\x00\x04\x00\x01\x00\x02\x00\x03\x00\x04\x00\x05\x00\x01",
    )?;
    plan_by_all(
        out,
        "row d",
        b"\x00\x00\x00\x0C\x01\x01\x00\x01\x00\x02\xFF\xFF\x00\x07\x00\x07",
    )?;
    plan_by_all(
        out,
        "n 0",
        b"\x00\x00\x00\x08\x01\x01\x00\x04\x00\x00\x00\x01",
    )
}

// Which symbol goes of several that are never drawn again: the one whose last draw is earliest, one not yet drawn before it, and a free slot
// before both. One that is drawn again stays, though it was drawn longest ago.
pub fn ties<W: Write>(out: &mut W) -> io::Result<()> {
    plan_by_all(
        out,
        "came free first",
        b"\x00\x00\x00\x10\x01\x02\x00\x02\x00\x03\x00\x01\x00\x02\x00\x02\x00\x01\x00\x03",
    )?;
    plan_by_all(
        out,
        "not yet drawn",
        b"\x00\x00\x00\x12\x01\x03\x00\x01\x00\x03\x00\x01\x00\x02\x00\x09\x00\x02\x00\x01\x00\x03",
    )?;
    plan_by_all(
        out,
        "a free slot first",
        b"\x00\x00\x00\x14\x01\x03\x00\x02\x00\x04\x00\x01\x00\x02\xFF\xFF\x00\x02\x00\x01\x00\x03\x00\x04",
    )?;
    plan_by_all(
        out,
        "drawn again",
        b"\x00\x00\x00\x16\x01\x03\x00\x01\x00\x05\x00\x01\x00\x02\x00\x03\x00\x01\x00\x03\x00\x02\x00\x04\x00\x01",
    )
}

// Job a with one number changed, by the first plan.
fn with_number<W: Write>(out: &mut W, name: &str, at: usize, number: u16) -> io::Result<()> {
    plan_job(out, name, &changed(at, number), 0)
}

pub fn refused_jobs<W: Write>(out: &mut W) -> io::Result<()> {
    plan_job(out, "plan 1, no bytes", b"", 0)?;
    with_number(out, "plan 2, version 2", 4, 514)?;
    with_number(out, "plan 3, 65 slots", 4, 321)?;
    with_number(out, "plan 3, no load time", 6, 0)?;
    with_number(out, "plan 4, a draw more than the length has", 8, 5)?;
    with_number(out, "plan 5, a symbol in two slots", 12, 1)
}

// 6: there are four plans. 7: four draws need 35 bytes of room.
pub fn refused_calls<W: Write>(out: &mut W) -> io::Result<()> {
    plan_job(out, "plan 6, number 4", &JOB_A, 4)?;
    plan_job(out, "plan 6, number 4,294,967,295", &JOB_A, 4294967295)?;
    let mut short_room = [0u8; 34];
    plan_in(out, &mut short_room, "plan 7, 34 bytes", &JOB_A, 0, 1)?;
    plan_in(out, &mut short_room, "plan 6, before 7", &JOB_A, 4, 1)?;
    let mut room = [0u8; 35];
    plan_in(out, &mut room, "plan in 35 bytes", &JOB_A, 0, 1)
}

pub fn largest<W: Write>(out: &mut W) -> io::Result<()> {
    let mut job = [0u8; 8330];
    put_job(&mut job, 64, 1000, 4096, 5)?;
    plan_by_all(out, "the largest job", &job)
}
