// The reader: the load list of a text, in lent room. The text is gone through once; its list is made in a row of its own and handed out
// when the last refusal is past.
ghost use Rattle.std.specs.Prelude.{◌≡◌, ◌≤◌, length};
ghost use Rattle.rules.specs.Refusals.{lent};
ghost use Rattle.rules.specs.Text.{read_text, written_of, bytes_of};
ghost use Rattle.text.specs.Found.{told};
ghost use Rattle.text.specs.Lists.{most_list, NotedLines, HasList, HandsOut};

use crate::answer::told;
use crate::line::line_at;
use rules::{MOST_EVENTS, Refusal, Written};
use sheet::LoadList;

// The bytes of the longest list: a head and 4,096 events.
const MOST_LIST: usize = 28679;

// Goes through the text line by line, and makes its list in the row. The answer is the number of its lines, or its first bad line.
fn note_lines(text: &[u8], row: &mut [u8]) -> Result<u16, Refusal>
    requires { most_list ≤ length row.old }
    ensures { NotedLines text.now result row.old row.new }
{
    let mut at: usize = 0;
    let mut lines: u16 = 0;
    while at < text.len() {
        if MOST_EVENTS <= lines {
            return Err(Refusal::LineForm { line: lines as u32 });
        }
        let Some(line) = line_at(text, at) else {
            return Err(Refusal::LineForm { line: lines as u32 });
        };
        // The row has room for the longest list.
        let _ = sheet::put_event(row, lines, line.event);
        lines += 1;
        at = line.after;
    }
    let _ = sheet::put_head(row, lines);
    Ok(lines)
}

// The list of this many events in the row, handed out where its ticks are in order and the room is long enough.
fn hand_out(row: &[u8], count: u16, list: &mut [u8]) -> Result<u32, Refusal>
    requires { HasList count row.now }
    ensures { HandsOut count row.now result list.old list.new }
{
    let size = sheet::list_size(count as u32);
    let made = LoadList {
        bytes: &row[..size],
        count,
    };
    made.check_ticks()?;
    if list.len() < size {
        return Err(Refusal::ShortRoom);
    }
    list[..size].copy_from_slice(made.bytes);
    Ok(size as u32)
}

// The number of bytes written, or why nothing was written.
fn write_list(text: &[u8], list: &mut [u8]) -> Result<u32, Refusal>
    ensures answers { told result ≡ written_of (read_text text.now (length list.old)) }
    ensures writes { list.new ≡ lent (bytes_of (read_text text.now (length list.old))) list.old }
{
    let mut row = [0u8; MOST_LIST];
    let count = note_lines(text, &mut row)?;
    hand_out(&row, count, list)
}

// Writes the list of a text from the lent room's first byte on. Where the text is refused, the room is as it was.
pub fn read_text(text: &[u8], list: &mut [u8]) -> Written
    ensures answers { result ≡ written_of (read_text text.now (length list.old)) }
    ensures writes { list.new ≡ lent (bytes_of (read_text text.now (length list.old))) list.old }
{
    told(write_list(text, list))
}
