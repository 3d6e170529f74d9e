// Reading what a program is given: the file that an argument names, into a lent buffer. A buffer of one byte more than the longest
// file of its format is enough: a longer file is judged by those bytes. What cannot be read is said in one line on standard error,
// which is the writer `err`.
ghost use Rattle.std.specs.Prelude.{◌≤◌, IfSome, length};
ghost use Rattle.std.specs.Io.{ReadsAtMost};

use crate::line::say_failure;
use std::alloc::Global;
use std::env::FillError;
use std::io::{Read, Write};
use std::rt::{Env, Files};
use std::{fs, io, str};

// The longest load list, and room for the longest job and the longest list and one byte more of each.
pub const LONGEST_LIST: usize = 28679;

pub const LIST_ROOM: usize = LONGEST_LIST + 1;

pub const JOB_ROOM: usize = 8331;

// Whether the program was given this argument.
pub fn has_argument<E: Env>(rt: &E, argument: usize) -> bool {
    !matches!(rt.arg(argument, &mut []), Err(FillError::NotPresent))
}

fn say_unread<W: Write>(alloc: Global, err: &mut W, name: &[u8], error: &io::Error) {
    let _ = err.write_all(b"cannot read ");
    say_failure(alloc, err, name, error);
}

// The line for an argument that is not there, or that is longer than a path can be.
fn say_unnamed<W: Write>(err: &mut W, kind: &[u8], fault: FillError) {
    let words = match fault {
        FillError::NotPresent => "Invalid argument",
        FillError::TooLong => "File name too long",
    };
    let _ = err.write_all(b"cannot take the name of the ");
    let _ = err.write_all(kind);
    let _ = writeln!(err, ": {words}");
}

// Reads until the buffer is full or the input ends, and answers how many bytes are at the front of the buffer now.
pub fn read_full<R: Read>(input: &mut R, buffer: &mut [u8]) -> io::Result<usize>
    ensures { ReadsAtMost result buffer.new }
{
    let mut count = 0;
    while count < buffer.len() {
        let got = input.read(&mut buffer[count..])?;
        if got == 0 {
            break;
        }
        count += got;
    }
    Ok(count)
}

// The file of this path, opened to be read. One whose name is not UTF-8 text cannot be opened by std.
fn open<R: Files>(rt: &R, path: &[u8]) -> io::Result<R::File> {
    match str::from_utf8(path) {
        Ok(name) => fs::open(rt, name),
        Err(_) => Err(io::Error::new(io::ErrorKind::InvalidFilename, "the name is not UTF-8 text")),
    }
}

// Reads the file of this path until it ends or the buffer is full.
fn read_file<R: Files>(rt: &R, path: &[u8], buffer: &mut [u8]) -> io::Result<usize>
    ensures { ReadsAtMost result buffer.new }
{
    let mut file = open(rt, path)?;
    read_full(&mut file, buffer)
}

// The bytes of the file that an argument of the program names, which are at the front of the buffer now. Where they cannot be read,
// what is wrong was said. `kind` says what the file should be.
pub fn read_argument<'a, R: Env + Files + AllocGlobal, W: Write>(
    rt: &R,
    err: &mut W,
    argument: usize,
    kind: &[u8],
    buffer: &'a mut [u8],
) -> Option<&'a [u8]>
    ensures { IfSome result (λ bytes. length bytes.now ≤ length buffer.old) }
{
    let mut path = [0u8; 4096];
    let length = match rt.arg(argument, &mut path) {
        Ok(length) => length,
        Err(fault) => {
            say_unnamed(err, kind, fault);
            return None;
        }
    };
    match read_file(rt, &path[..length], buffer) {
        Ok(count) => Some(&buffer[..count]),
        Err(error) => {
            say_unread(rt.alloc(), err, &path[..length], &error);
            None
        }
    }
}

// The job and the list that the first two arguments name. Where one cannot be read, what is wrong was said.
pub fn read_sheet<'a, R: Env + Files + AllocGlobal, W: Write>(
    rt: &R,
    err: &mut W,
    job_room: &'a mut [u8],
    list_room: &'a mut [u8],
) -> Option<(&'a [u8], &'a [u8])>
    ensures job { IfSome result (λ sheet. length sheet.0.now ≤ length job_room.old) }
    ensures list { IfSome result (λ sheet. length sheet.1.now ≤ length list_room.old) }
{
    let job = read_argument(rt, err, 1, b"job", job_room)?;
    let list = read_argument(rt, err, 2, b"list", list_room)?;
    Some((job, list))
}
