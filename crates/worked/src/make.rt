// The jobs and lists of the cases: job a of document 01, job a with a number changed, a job of any size, and a list of up to two events.
ghost use Rattle.std.specs.Prelude.{◌≤◌, length};

use rules::Event;
use std::io;
use std::io::Write;

// Two slots, load time 4, slots 1 2, draws 1 2 3 1.
pub const JOB_A: [u8; 22] =
    *b"\x00\x00\x00\x12\x01\x02\x00\x04\x00\x04\x00\x01\x00\x02\x00\x01\x00\x02\x00\x03\x00\x01";

// Job a with another number in the two bytes from this place on.
pub fn changed(at: usize, number: u16) -> [u8; 22] {
    let mut job = JOB_A;
    for (place, byte) in job.iter_mut().skip(at).zip(number.to_be_bytes()) {
        *place = byte;
    }
    job
}

// This many symbols, in steps round the symbols from 1 to 97: enough that no display holds them all.
fn put_round<W: Write>(to: &mut W, count: u16, step: u16) -> io::Result<()> {
    for place in 0..count {
        let symbol = (u64::from(place) * u64::from(step) % 97 + 1) as u16;
        to.write_all(&symbol.to_be_bytes())?;
    }
    Ok(())
}

// A job whose slots hold the symbols from 1 to k, and whose draws go in steps round the 97: length, version, slots, load time, draws,
// and the symbols.
pub fn put_job(mut to: &mut [u8], slots: u8, time: u16, draws: u16, step: u16) -> io::Result<()> {
    let length = 6 + 2 * u32::from(slots) + 2 * u32::from(draws);
    to.write_all(&length.to_be_bytes())?;
    to.write_all(&[1, slots])?;
    to.write_all(&time.to_be_bytes())?;
    to.write_all(&draws.to_be_bytes())?;
    put_round(&mut to, u16::from(slots), 1)?;
    put_round(&mut to, draws, step)
}

pub fn event(tick: u32, slot: u8, symbol: u16) -> Event {
    Event { tick, slot, symbol }
}

// The list of up to two events, in the front of the room.
pub fn put_list<'a>(room: &'a mut [u8; 21], events: &[Event]) -> &'a [u8]
    requires { length events.now ≤ 2 }
{
    let count = events.len() as u16;
    // The room is that of two events, so both fit.
    let _ = sheet::put_head(room, count);
    for (index, event) in (0..count).zip(events) {
        let _ = sheet::put_event(room, index, *event);
    }
    &room[..7 + 7 * events.len()]
}
