// The writer: the text of a load list, a line to each event, in lent room.
ghost use Rattle.std.specs.Prelude.{◌≡◌, ◌++◌, ◌+◌, ◌*◌, ◌≤◌, length, take, drop};
ghost use Rattle.rules.specs.LoadList.{events_in, head_size};
ghost use Rattle.rules.specs.Refusals.{lent};
ghost use Rattle.rules.specs.Text.{line_of, text_of, write_text, written_of, bytes_of};
ghost use Rattle.text.specs.Found.{told};

use crate::answer::told;
use crate::decimal::{digits, put_field};
use rules::{Event, Refusal, Written};
use sheet::LoadList;

// The bytes of an event's line.
fn line_size(event: Event) -> usize
    ensures { (result ≡ length (line_of event)) × (result ≤ 33) }
{
    digits(event.tick) + digits(event.slot as u32) + digits(event.symbol as u32) + 3
}

// The bytes of the text of a list.
fn text_size(list: LoadList<'_>) -> usize
    ensures { (result ≡ length (text_of (events_in list.entry.count (drop head_size list.entry.bytes.now)))) × (result ≤ 33 * list.entry.count) }
{
    let mut size: usize = 0;
    for index in 0..list.count {
        size += line_size(list.event(index));
    }
    size
}

// Writes an event's line from a place on. The answer is the place after it.
fn put_line(text: &mut [u8], at: usize, event: Event) -> usize
    requires { at + length (line_of event) ≤ length text.old }
    ensures next { result ≡ at + length (line_of event) }
    ensures written { text.new ≡ take at text.old ++ line_of event ++ drop (at + length (line_of event)) text.old }
{
    let slot_at = put_field(text, at, event.tick, b' ');
    let symbol_at = put_field(text, slot_at, event.slot as u32, b' ');
    put_field(text, symbol_at, event.symbol as u32, b'\n')
}

// Writes the lines of a list from the text's first byte on.
fn put_lines(list: LoadList<'_>, text: &mut [u8])
    requires { length (text_of (events_in list.count (drop head_size list.bytes.now))) ≤ length text.old }
    ensures { text.new ≡ lent (text_of (events_in list.entry.count (drop head_size list.entry.bytes.now))) text.old }
{
    let mut at: usize = 0;
    for index in 0..list.count {
        at = put_line(text, at, list.event(index));
    }
}

// The number of bytes written, or why nothing was written.
fn write_lines(list: &[u8], text: &mut [u8]) -> Result<u32, Refusal>
    ensures answers { told result ≡ written_of (write_text list.now (length text.old)) }
    ensures writes { text.new ≡ lent (bytes_of (write_text list.now (length text.old))) text.old }
{
    let list = LoadList::read(list)?;
    list.check_ticks()?;
    let size = text_size(list);
    if text.len() < size {
        return Err(Refusal::ShortRoom);
    }
    put_lines(list, text);
    Ok(size as u32)
}

// Writes the text of a list from the lent room's first byte on. Where the list is refused, the room is as it was.
pub fn write_text(list: &[u8], text: &mut [u8]) -> Written
    ensures answers { result ≡ written_of (write_text list.now (length text.old)) }
    ensures writes { text.new ≡ lent (bytes_of (write_text list.now (length text.old))) text.old }
{
    told(write_lines(list, text))
}
