// Standard input, standard output, standard error and open files, for a program that reads all it wants, calls, and writes once. No contract can say
// which bytes are read or written; how many is proved. Rests on std's Read and Print, whose system calls are assumed.
#![tactic(auto)]

ghost use Rattle.std.specs.Prelude.{◌≤◌, IfOk, length};

use std::env::{Env, FillError};
use std::fmt::InlineText;
use std::fs::File;
use std::io::Read;
use std::{fs, io, str};

// Reads from a reader, as an open file, until the slice is full or the input ends: so many bytes stand at the front of the slice. After an error what
// stands there is not the input.
pub fn read_from<R: Read>(reader: &mut R, room: &mut [u8]) -> io::Result<usize>
    ensures { IfOk result (λ n. n ≤ length room.old) }
{
    let mut done = 0;
    while done < room.len() {
        let n = reader.read(&mut room[done..])?;
        if n == 0 {
            break;
        }
        done += n;
    }
    Ok(done)
}

// Reads standard input until the slice is full or the input ends.
pub fn read_input(rt: &HostRuntime, room: &mut [u8]) -> io::Result<usize>
    ensures { IfOk result (λ n. n ≤ length room.old) }
{
    read_from(&mut rt.stdin(), room)
}

pub fn write_output(rt: &HostRuntime, bytes: &[u8]) -> io::Result<()> {
    rt.stdout().write_all(bytes)
}

pub fn write_error(rt: &HostRuntime, bytes: &[u8]) -> io::Result<()> {
    rt.stderr().write_all(bytes)
}

// Whether an argument of this number was given; number 0 is the program's own name.
pub fn is_given(rt: &HostRuntime, argument: usize) -> bool {
    !matches!(rt.arg(argument, &mut [0]), Err(FillError::NotPresent))
}

// The argument comes to the front of the room: how long it is, or why it is not there.
pub fn read_argument(rt: &HostRuntime, argument: usize, room: &mut [u8]) -> io::Result<usize>
    ensures { IfOk result (λ n. n ≤ length room.new) }
{
    rt.arg(argument, room).map_err(|error| {
        io::Error::from_raw_os_error(match error {
            FillError::TooLong => NAME_TOO_LONG,
            FillError::NotPresent => INVALID,
        })
    })
}

// Opens the file of this name for reading. std's names are UTF-8: another is no file's.
pub fn open_file(rt: &HostRuntime, name: &[u8]) -> io::Result<File> {
    match str::from_utf8(name) {
        Ok(path) => fs::open(rt, path),
        Err(_) => Err(io::Error::from_raw_os_error(NOT_TEXT)),
    }
}

// The system's words: std writes the error's number behind them, in parentheses.
fn words_of(said: &str) -> &str {
    said.rsplit_once(" (").map_or(said, |(words, _)| words)
}

// Writes what failed, a colon and the system's words for it, as a line of standard error.
pub fn write_failure(rt: &HostRuntime, what: &[u8], error: &io::Error) {
    let said = InlineText::<128>::of(error);
    let words = words_of(said.as_str());
    let _ = write_error(rt, what);
    let _ = eprintln!(rt; ": {words}");
}

// The system's numbers of three errors.
const INVALID: i32 = 22;

const NAME_TOO_LONG: i32 = 36;

const NOT_TEXT: i32 = 84;
