// The cases of a check, in groups: the rows, the edges, and what is refused, by number.
use crate::check_case::{check_events, check_in, check_list};
use crate::make::{JOB_A, changed, event, put_job};
use std::io;
use std::io::Write;

pub const NO_EVENTS: [u8; 7] = *b"\x00\x00\x00\x03\x01\x00\x00";

pub fn rows<W: Write>(out: &mut W) -> io::Result<()> {
    check_events(out, "row e", &JOB_A, &[event(2, 1, 3)])?;
    check_events(out, "row f", &JOB_A, &[event(1, 0, 3)])?;
    check_events(out, "row g", &JOB_A, &[event(2, 1, 3), event(7, 1, 2)])?;
    check_events(out, "row h", &JOB_A, &[event(2, 1, 3), event(5, 0, 2)])?;
    check_events(out, "row i", &JOB_A, &[event(2, 1, 3), event(8, 0, 2)])?;
    check_events(
        out,
        "row j, a symbol that is held",
        &JOB_A,
        &[event(0, 1, 1)],
    )?;
    check_events(
        out,
        "row j, a slot that is not there",
        &JOB_A,
        &[event(0, 2, 3)],
    )
}

// A job of this many slots and this load time that draws the symbols 1 and 97, and a list that loads 97 into slot 63 at tick 0.
fn edge<W: Write>(out: &mut W, name: &str, slots: u8, time: u16) -> io::Result<()> {
    let mut room = [0u8; 8330];
    put_job(&mut room, slots, time, 2, 96)?;
    match room.get(..14 + 2 * usize::from(slots)) {
        Some(job) => check_events(out, name, job, &[event(0, 63, 97)]),
        None => Ok(()),
    }
}

pub fn edges<W: Write>(out: &mut W) -> io::Result<()> {
    edge(out, "k 64", 64, 4)?;
    edge(out, "k 65", 65, 4)?;
    edge(out, "k 0", 0, 4)?;
    edge(out, "F 1,000", 64, 1000)?;
    edge(out, "F 1,001", 64, 1001)?;
    edge(out, "F 0", 64, 0)?;
    check_list(
        out,
        "n 0",
        b"\x00\x00\x00\x08\x01\x01\x00\x04\x00\x00\x00\x01",
        &NO_EVENTS,
    )?;
    let late = b"\x00\x00\x00\x0A\x01\x01\x00\x01\x00\x01\xFF\xFF\x00\x07";
    check_events(out, "tick 8,388,607", late, &[event(8388607, 0, 7)])?;
    check_events(out, "tick 8,388,608", late, &[event(8388608, 0, 7)])
}

// The longest single wait: two slots, two ticks to a load, and two draws, each of a symbol that no slot holds; then a job with no wait.
pub fn pauses<W: Write>(out: &mut W) -> io::Result<()> {
    let job = b"\x00\x00\x00\x0E\x01\x02\x00\x02\x00\x02\x00\x01\x00\x02\x00\x03\x00\x04";
    check_events(
        out,
        "the longest wait before the first draw",
        job,
        &[event(3, 0, 3), event(5, 1, 4)],
    )?;
    check_events(
        out,
        "the longest wait before the last draw",
        job,
        &[event(0, 0, 3), event(6, 1, 4)],
    )?;
    check_events(
        out,
        "two equal waits",
        job,
        &[event(0, 0, 3), event(3, 1, 4)],
    )?;
    check_list(
        out,
        "no wait",
        b"\x00\x00\x00\x0C\x01\x01\x00\x01\x00\x02\x00\x01\x00\x01\x00\x01",
        &NO_EVENTS,
    )
}

// Job a with one number changed.
fn with_number<W: Write>(out: &mut W, name: &str, at: usize, number: u16) -> io::Result<()> {
    check_list(out, name, &changed(at, number), &NO_EVENTS)
}

pub fn refused_jobs<W: Write>(out: &mut W) -> io::Result<()> {
    check_list(out, "check 1, no bytes", b"", &NO_EVENTS)?;
    check_list(
        out,
        "check 1, nine bytes",
        b"\x00\x00\x00\x05\x01\x02\x00\x04\x00",
        &NO_EVENTS,
    )?;
    with_number(out, "check 1, a length one too great", 2, 19)?;
    with_number(out, "check 2, version 2", 4, 514)?;
    with_number(out, "check 3, 4,097 draws", 8, 4097)?;
    with_number(out, "check 4, a slot more than the length has", 4, 259)?;
    with_number(out, "check 4, a draw more than the length has", 8, 5)?;
    with_number(out, "check 5, a symbol in two slots", 12, 1)?;
    with_number(out, "check 5, the mark of a free slot is drawn", 20, 65535)
}

pub fn refused_lists<W: Write>(out: &mut W) -> io::Result<()> {
    check_list(
        out,
        "check 8, six bytes",
        &JOB_A,
        b"\x00\x00\x00\x02\x01\x00",
    )?;
    check_list(
        out,
        "check 8, a length one too great",
        &JOB_A,
        b"\x00\x00\x00\x04\x01\x00\x00",
    )?;
    check_list(
        out,
        "check 8, version 0",
        &JOB_A,
        b"\x00\x00\x00\x03\x00\x00\x00",
    )?;
    check_list(
        out,
        "check 8, 4,097 events",
        &JOB_A,
        b"\x00\x00\x00\x03\x01\x10\x01",
    )?;
    check_list(
        out,
        "check 8, an event more than the length has",
        &JOB_A,
        b"\x00\x00\x00\x03\x01\x00\x01",
    )?;
    check_events(
        out,
        "check 9, the same tick again",
        &JOB_A,
        &[event(2, 1, 3), event(2, 0, 2)],
    )?;
    check_events(
        out,
        "check 9, before 11 of an earlier event",
        &JOB_A,
        &[event(2, 9, 3), event(1, 0, 2)],
    )
}

pub fn refused_runs<W: Write>(out: &mut W) -> io::Result<()> {
    check_events(
        out,
        "check 10, before 11 and 12",
        &JOB_A,
        &[event(2, 1, 3), event(3, 9, 1)],
    )?;
    check_events(
        out,
        "check 11, in the second event",
        &JOB_A,
        &[event(2, 1, 3), event(6, 2, 2)],
    )?;
    check_events(out, "check 11, before 12", &JOB_A, &[event(0, 9, 1)])?;
    check_events(
        out,
        "check 12, a held symbol",
        &JOB_A,
        &[event(2, 1, 3), event(6, 0, 3)],
    )?;
    check_events(
        out,
        "check 12, the mark of a free slot",
        &JOB_A,
        &[event(0, 1, 65535)],
    )?;
    check_list(out, "check 13, no event for draw 2", &JOB_A, &NO_EVENTS)?;
    check_events(
        out,
        "check 13, the symbol went out",
        &JOB_A,
        &[event(0, 0, 3)],
    )?;
    check_events(
        out,
        "check 14, an event after the last draw",
        &JOB_A,
        &[event(2, 1, 3), event(8388607, 0, 2)],
    )
}

// 7: a place too few for the ticks, and one too few for the slots. A list that is no list comes first.
pub fn short_rooms<W: Write>(out: &mut W) -> io::Result<()> {
    let mut three_ticks = [0u32; 3];
    let mut four_slots = [0u8; 4];
    check_in(
        out,
        "check 7, ticks",
        &JOB_A,
        &NO_EVENTS,
        1,
        &mut three_ticks,
        &mut four_slots,
    )?;
    let mut four_ticks = [0u32; 4];
    let mut three_slots = [0u8; 3];
    check_in(
        out,
        "check 7, slots",
        &JOB_A,
        &NO_EVENTS,
        1,
        &mut four_ticks,
        &mut three_slots,
    )?;
    check_in(
        out,
        "check 8, before 7",
        &JOB_A,
        b"",
        1,
        &mut three_ticks,
        &mut three_slots,
    )
}
