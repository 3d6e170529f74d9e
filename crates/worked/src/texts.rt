// The cases of a text: lists that are written, texts that are read, and what is refused, by number.
use crate::make::event;
use crate::text_case::{read_in, read_lines, write_in, write_one};
use std::io;
use std::io::Write;

// The event 2/1/3, and that one twice.
const ONE_EVENT: [u8; 14] = *b"\x00\x00\x00\x0A\x01\x00\x01\x00\x00\x00\x02\x01\x00\x03";

const SAME_TICK: [u8; 21] =
    *b"\x00\x00\x00\x11\x01\x00\x02\x00\x00\x00\x02\x01\x00\x03\x00\x00\x00\x02\x01\x00\x03";

pub fn written<W: Write>(out: &mut W) -> io::Result<()> {
    write_one(out, "write 2/1/3", event(2, 1, 3))?;
    write_one(out, "write 0/0/0", event(0, 0, 0))?;
    write_one(
        out,
        "write the greatest numbers",
        event(8388607, 255, 65535),
    )?;
    let mut room = [0u8; 18];
    write_in(
        out,
        &mut room,
        "write no events",
        b"\x00\x00\x00\x03\x01\x00\x00",
    )
}

// 8, then 9, then 7.
pub fn refused_lists<W: Write>(out: &mut W) -> io::Result<()> {
    let mut room = [0u8; 18];
    write_in(out, &mut room, "write 8, no bytes", b"")?;
    write_in(
        out,
        &mut room,
        "write 8, an event more than the length has",
        b"\x00\x00\x00\x03\x01\x00\x01",
    )?;
    write_one(out, "write 9, tick 8,388,608", event(8388608, 1, 3))?;
    write_in(out, &mut room, "write 9, the same tick again", &SAME_TICK)?;
    let mut short_room = [0u8; 5];
    write_in(out, &mut short_room, "write 7, five bytes", &ONE_EVENT)?;
    write_in(out, &mut short_room, "write 8, before 7", b"")?;
    write_in(out, &mut short_room, "write 9, before 7", &SAME_TICK)?;
    let mut exact_room = [0u8; 6];
    write_in(out, &mut exact_room, "write in six bytes", &ONE_EVENT)
}

pub fn read<W: Write>(out: &mut W) -> io::Result<()> {
    read_lines(out, "read one line", b"2 1 3\n")?;
    read_lines(out, "read two lines", b"2 1 3\n6 0 2\n")?;
    read_lines(out, "read the greatest numbers", b"8388607 255 65535\n")?;
    read_lines(out, "read no lines", b"")
}

// 16 over the whole text, then 9, then 7.
pub fn refused_texts<W: Write>(out: &mut W) -> io::Result<()> {
    read_lines(out, "read 16, no line feed", b"2 1 3")?;
    read_lines(out, "read 16, an empty line", b"2 1 3\n\n")?;
    read_lines(out, "read 16, two blanks", b"2  1 3\n")?;
    read_lines(out, "read 16, a blank at the end", b"2 1 3 \n")?;
    read_lines(out, "read 16, a zero before a number", b"2 01 3\n")?;
    read_lines(out, "read 16, a sign", b"+2 1 3\n")?;
    read_lines(out, "read 16, slot 256", b"2 256 3\n")?;
    read_lines(out, "read 16, symbol 65536", b"2 1 65536\n")?;
    read_lines(out, "read 9, tick 8,388,608", b"8388608 1 3\n")?;
    read_lines(
        out,
        "read 9, a tick of 20 digits",
        b"18446744073709551616 1 3\n",
    )?;
    read_lines(out, "read 9, the same tick again", b"2 1 3\n2 1 3\n")?;
    read_lines(
        out,
        "read 16, before 9 of an earlier line",
        b"8388608 1 3\n3 1\n",
    )?;
    let mut short_room = [0u8; 13];
    read_in(out, &mut short_room, "read 7, 13 bytes", b"2 1 3\n")?;
    read_in(out, &mut short_room, "read 16, before 7", b"2 1 3")?;
    read_in(out, &mut short_room, "read 9, before 7", b"2 1 3\n2 1 3\n")?;
    let mut exact_room = [0u8; 14];
    read_in(out, &mut exact_room, "read in 14 bytes", b"2 1 3\n")
}
