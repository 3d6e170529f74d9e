// Writes a load list as text, or the load list of a text, on standard output. Arguments: `text` and the list's file, or `list` and the
// text's file. What is refused gets the line of its refusal and a line in words on standard error, and nothing is written.
#![tactic(auto)]

use report::{InWords, LIST_ROOM, LONGEST_LIST, Refused};
use rules::Written;
use std::io::Write;
use std::rt::Env;

// Of 4,096 lines of at most 18 bytes: a tick of 7 digits, a slot of 3, a symbol of 5, two blanks and a line feed.
const LONGEST_TEXT: usize = 73728;

// A text that is longer has a line too many or a tick with too many digits. More of it is read, so that it is refused by the line that
// is wrong.
const TEXT_ROOM: usize = 262145;

// What a file should be, and what is said where what it was turned into cannot be written.
#[derive(Clone, Copy)]
struct Turned<'a> {
    kind: &'a [u8],
    fault: &'a [u8],
}

// Reads the file into the first room, turns it into the other format, and hands out what that wrote at the front of the second room.
fn turn<T: FnOnce(&[u8], &mut [u8]) -> Written>(
    rt: &HostRuntime,
    words: Turned<'_>,
    input: &mut [u8],
    room: &mut [u8],
    turned: T,
)
    requires { T.IsAlwaysCallable turned }
{
    let mut err = rt.stderr();
    let Some(given) = report::read_argument(rt, &mut err, 2, words.kind, input) else {
        return;
    };
    let answer = turned(given, room);
    if let Some(refused) = Refused::of(answer.number, answer.detail) {
        let _ = writeln!(err, "{refused}");
        let _ = writeln!(err, "{}", InWords(refused));
        return;
    }
    let end = room.len().min(answer.size as usize);
    if let Err(error) = rt.stdout().write_all(&room[..end]) {
        report::say_failure(rt.alloc(), &mut err, words.fault, &error);
    }
}

// Both words have four bytes; an argument that is missing or longer reads as no bytes.
fn main(rt: HostRuntime) {
    let mut word = [0u8; 4];
    let length = rt.arg(1, &mut word).unwrap_or(0);
    let has_two = report::has_argument(&rt, 2) && !report::has_argument(&rt, 3);
    match &word[..length] {
        b"text" if has_two => turn(
            &rt,
            Turned {
                kind: b"list",
                fault: b"cannot write the text",
            },
            &mut [0u8; LIST_ROOM],
            &mut [0u8; LONGEST_TEXT],
            |list, room| text::write_text(list, room),
        ),
        b"list" if has_two => turn(
            &rt,
            Turned {
                kind: b"text",
                fault: b"cannot write the list",
            },
            &mut [0u8; TEXT_ROOM],
            &mut [0u8; LONGEST_LIST],
            |lines, room| text::read_text(lines, room),
        ),
        _ => {
            let _ = writeln!(
                rt.stderr(),
                "write: text_sheet text LIST, or: text_sheet list TEXT"
            );
        }
    }
}
