// What a program could not do, in one line with its reason.
use std::alloc::Global;
use std::io;
use std::io::Write;

// The text of an error without the system's number, which std writes after its words and which tells a compositor nothing.
fn without_number(text: &str) -> &str {
    text.split_once(" (os error ")
        .map_or(text, |(words, _)| words)
}

fn say_line<W: Write>(alloc: Global, to: &mut W, what: &[u8], error: &io::Error) -> io::Result<()> {
    to.write_all(what)?;
    to.write_all(b": ")?;
    let text = format!(in alloc; "{error}")?;
    writeln!(to, "{}", without_number(text.as_str()))
}

// The line for what could not be done, and why. Where not even that line can be written, there is nobody left to tell.
pub fn say_failure<W: Write>(alloc: Global, to: &mut W, what: &[u8], error: &io::Error) {
    let _ = say_line(alloc, to, what, error);
}
