// The cases of a sheet that is redrawn: plans and checks through the rounds, the most draws that all rounds may have, and what is
// refused with 17.
use crate::check_case::{check_in, check_rounds};
use crate::checks::NO_EVENTS;
use crate::make::{JOB_A, changed, put_job};
use crate::plan_case::{plan_in, plan_rounds, rounds_by_all};
use std::io;
use std::io::Write;

// One slot that is free and one draw of 7; two ticks to a load.
const ONE_DRAW: [u8; 14] = *b"\x00\x00\x00\x0A\x01\x01\x00\x02\x00\x01\xFF\xFF\x00\x07";

const NO_DRAWS: [u8; 12] = *b"\x00\x00\x00\x08\x01\x01\x00\x04\x00\x00\x00\x01";

// Slots 1 2, load time 2, draws 1 2 3. When 3 is missed, its round draws neither 1 nor 2 again, and the next round draws 1 first.
pub fn plans<W: Write>(out: &mut W) -> io::Result<()> {
    rounds_by_all(out, "row a, two rounds", &JOB_A, 2)?;
    let redrawn =
        b"\x00\x00\x00\x10\x01\x02\x00\x02\x00\x03\x00\x01\x00\x02\x00\x01\x00\x02\x00\x03";
    rounds_by_all(out, "drawn again in no round", redrawn, 1)?;
    rounds_by_all(out, "drawn again in the next round", redrawn, 2)?;
    rounds_by_all(out, "4,096 rounds of one draw", &ONE_DRAW, 4096)?;
    rounds_by_all(out, "n 0, 4,294,967,295 rounds", &NO_DRAWS, 4294967295)
}

// Room is reckoned from the draws of all rounds: two rounds of four draws need 63 bytes.
pub fn rooms<W: Write>(out: &mut W) -> io::Result<()> {
    let mut short_room = [0u8; 62];
    plan_in(
        out,
        &mut short_room,
        "plan 7, 62 bytes for two rounds",
        &JOB_A,
        0,
        2,
    )?;
    let mut room = [0u8; 63];
    plan_in(
        out,
        &mut room,
        "plan of two rounds in 63 bytes",
        &JOB_A,
        0,
        2,
    )?;
    let mut seven_ticks = [0u32; 7];
    let mut eight_slots = [0u8; 8];
    check_in(
        out,
        "check 7, ticks for two rounds",
        &JOB_A,
        &NO_EVENTS,
        2,
        &mut seven_ticks,
        &mut eight_slots,
    )
}

// Row e's list covers one round: in the second, draw 5 is of a symbol that went out. With 2 loaded into slot 1 at tick 8 and 3 at
// tick 13 it covers both.
pub fn checks<W: Write>(out: &mut W) -> io::Result<()> {
    let one = b"\x00\x00\x00\x0A\x01\x00\x01\x00\x00\x00\x02\x01\x00\x03";
    check_rounds(out, "row e, two rounds", &JOB_A, one, 2)?;
    let two =
        b"\x00\x00\x00\x18\x01\x00\x03\x00\x00\x00\x02\x01\x00\x03\x00\x00\x00\x08\x01\x00\x02\x00\x00\x00\x0D\x01\x00\x03";
    check_rounds(out, "a list for two rounds", &JOB_A, two, 2)?;
    check_rounds(out, "a list for two rounds, one round", &JOB_A, two, 1)?;
    check_rounds(
        out,
        "n 0, 4,294,967,295 rounds",
        &NO_DRAWS,
        &NO_EVENTS,
        4294967295,
    )
}

// 17 comes after 5 and before 6.
pub fn refused_plans<W: Write>(out: &mut W) -> io::Result<()> {
    plan_rounds(out, "plan 17, no rounds", &ONE_DRAW, 0, 0)?;
    plan_rounds(out, "plan 17, no rounds of no draws", &NO_DRAWS, 0, 0)?;
    plan_rounds(out, "plan 17, 4,097 rounds of one draw", &ONE_DRAW, 0, 4097)?;
    plan_rounds(
        out,
        "plan 17, 4,294,967,295 rounds of one draw",
        &ONE_DRAW,
        0,
        4294967295,
    )?;
    plan_rounds(out, "plan 17, before 6", &ONE_DRAW, 4, 0)?;
    plan_rounds(out, "plan 5, before 17", &changed(12, 1), 0, 0)
}

// 17 comes after 5 and before 8.
pub fn refused_checks<W: Write>(out: &mut W) -> io::Result<()> {
    check_rounds(out, "check 17, no rounds", &ONE_DRAW, &NO_EVENTS, 0)?;
    check_rounds(
        out,
        "check 17, 4,097 rounds of one draw",
        &ONE_DRAW,
        &NO_EVENTS,
        4097,
    )?;
    check_rounds(out, "check 17, before 8", &ONE_DRAW, b"", 0)?;
    check_rounds(out, "check 5, before 17", &changed(12, 1), &NO_EVENTS, 0)
}

// 2,049 draws, so that two rounds have two too many.
pub fn too_long<W: Write>(out: &mut W) -> io::Result<()> {
    let mut job = [0u8; 4110];
    put_job(&mut job, 1, 1, 2049, 5)?;
    plan_rounds(out, "plan 17, two rounds of 2,049 draws", &job, 0, 2)?;
    check_rounds(
        out,
        "check 17, two rounds of 2,049 draws",
        &job,
        &NO_EVENTS,
        2,
    )
}
