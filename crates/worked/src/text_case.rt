// One case of a text: its name, the three numbers of the answer and, where it is not refused, what is in the room.
use crate::make::put_list;
use crate::plan_case::say_list;
use rules::{Event, Written};
use std::io;
use std::io::Write;

fn say_written<W: Write>(out: &mut W, name: &str, answer: Written) -> io::Result<()> {
    let Written {
        number,
        detail,
        size,
    } = answer;
    write!(out, "{name}: {number} {detail} {size}")
}

// The text of a list. The line feed of its last line ends the case's line too.
pub fn write_in<W: Write>(out: &mut W, room: &mut [u8], name: &str, list: &[u8]) -> io::Result<()> {
    let answer = text::write_text(list, room);
    say_written(out, name, answer)?;
    if answer.size == 0 {
        return writeln!(out);
    }
    let end = room.len().min(answer.size as usize);
    write!(out, "; ")?;
    out.write_all(&room[..end])
}

// The text of a list of one event, in the room of the longest line.
pub fn write_one<W: Write>(out: &mut W, name: &str, event: Event) -> io::Result<()> {
    let mut list = [0u8; 21];
    let mut room = [0u8; 18];
    write_in(out, &mut room, name, put_list(&mut list, &[event]))
}

// The list of a text.
pub fn read_in<W: Write>(out: &mut W, room: &mut [u8], name: &str, lines: &[u8]) -> io::Result<()> {
    let answer = text::read_text(lines, room);
    say_written(out, name, answer)?;
    if answer.number == 0 {
        let end = room.len().min(answer.size as usize);
        say_list(out, &room[..end])?;
    }
    writeln!(out)
}

// The same in the room of two events.
pub fn read_lines<W: Write>(out: &mut W, name: &str, lines: &[u8]) -> io::Result<()> {
    let mut room = [0u8; 21];
    read_in(out, &mut room, name, lines)
}
