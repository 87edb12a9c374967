// Damaged jobs and jobs at a limit, each with the number and the place that document 01 gives it. A line of standard input is a name, the number and the
// place, and after a colon the job's bytes; an empty line parts those that stand alone from those that go on behind 4,000 records, behind 1,000 questions,
// behind 500 pairs that must differ, and behind the longest job. A line that is written is a name, the number and the place that `job_read::read_job` answered; where those are not the expected ones,
// they are written behind. Of an accepted job a second line tells N, the records, the questions and the needed room. Every truncation, every changed byte and
// jobs in disorder are the comparison's (compare/framed). Rests on job_field, job_read and console; no contract says what is written, the stored output does.
#![tactic(auto)]

ghost use Rattle.std.specs.Prelude.{◌<◌, ◌≤◌, length};

use console::{read_input, write_output};
use job_read::{Accepted, Refusal, read_job};
use std::fmt;
use std::fmt::Display;

// The number and the place that document 01 gives an answer: 0 at 0 where the job is accepted.
#[derive(Clone, Copy, PartialEq, Eq)]
struct Verdict {
    number: u64,
    place: u64,
}

impl Display for Verdict {
    fn fmt<W: fmt::Write>(&self, f: &mut fmt::Formatter<W>) -> fmt::Result {
        write!(f, "{} {}", self.number, self.place)
    }
}

impl From<Result<Accepted, Refusal>> for Verdict {
    fn from(answer: Result<Accepted, Refusal>) -> Verdict {
        match answer {
            Err(Refusal { fault, place }) => Verdict {
                number: u64::from(u8::from(fault)),
                place: place as u64,
            },
            Ok(_) => Verdict {
                number: 0,
                place: 0,
            },
        }
    }
}

// Bytes of a line. Like the other writes, one that fails leaves its bytes out.
fn say(rt: &HostRuntime, bytes: &[u8]) {
    let _ = write_output(rt, bytes);
}

fn case(rt: &HostRuntime, name: &[u8], bytes: &[u8], expected: Verdict) {
    let answer = read_job(bytes);
    let verdict = Verdict::from(answer);
    say(rt, name);
    let _ = if verdict == expected {
        println!(rt; " {verdict}")
    } else {
        println!(rt; " {verdict} expected {expected}")
    };
    if let Ok(job) = answer {
        known(rt, name, job);
    }
}

// What an accepted job is known by: N, the records, the questions, the needed room.
fn known(rt: &HostRuntime, name: &[u8], job: Accepted) {
    say(rt, name);
    let _ = println!(rt;
        " {} {} {} {}",
        job.head.size, job.records, job.questions, job.room
    );
}

// Puts a field at a place where it fits, and answers the place behind it.
fn put(room: &mut [u8], at: usize, field: &[u8]) -> usize {
    if room.len() < field.len() || room.len() - field.len() < at {
        return at;
    }
    let end = at + field.len();
    room[at..end].copy_from_slice(field);
    end
}

// The text to the first such byte, with it, and the text behind that.
fn parted(text: &[u8], mark: u8) -> (&[u8], &[u8])
    ensures within { length result.1.now ≤ length text.now }
    ensures shorter { 0 < length text.now → length result.1.now < length text.now }
{
    let end = match text.iter().position(|b| *b == mark) {
        Some(i) => i + 1,
        None => text.len(),
    };
    text.split_at(end)
}

// A digit, decimal or hexadecimal.
fn digit(x: u8) -> u8 {
    match x {
        65.. => x - 55,
        48.. => x - 48,
        _ => 0,
    }
}

fn byte_of(high: u8, low: u8) -> u8 {
    digit(high) % 16 * 16 + digit(low) % 16
}

// The number before a byte that ends it.
fn number_of_digits(digits: &[u8], mark: u8) -> u64 {
    let mut value: u64 = 0;
    for x in digits {
        if *x != mark {
            value = value % 1000000 * 10 + u64::from(digit(*x));
        }
    }
    value
}

// The bytes of a line come to a place of the room: each is a space and two hexadecimal digits. Where they end in the room, and the text behind the line.
fn lay<'a>(text: &'a [u8], room: &mut [u8], start: usize) -> (usize, &'a [u8])
    ensures { length result.1.now ≤ length text.now }
{
    let mut rest = text;
    let mut end = start;
    loop {
        match rest {
            [b'\n', behind @ ..] => return (end, behind),
            [_, high, low, behind @ ..] if end < room.len() => {
                room[end] = byte_of(*high, *low);
                end += 1;
                rest = behind;
            }
            _ => return (end, &[]),
        }
    }
}

// A line of the text: a name, the number and the place that are expected, and the bytes that stand in the room from a place on, to the job's end. The text behind it.
fn row<'a>(rt: &HostRuntime, text: &'a [u8], room: &mut [u8], start: usize) -> &'a [u8]
    ensures { 0 < length text.now → length result.now < length text.now }
{
    let (name, behind) = parted(text, b' ');
    let (number, behind) = parted(behind, b' ');
    let (place, behind) = parted(behind, b':');
    let (end, behind) = lay(behind, room, start);
    let expected = Verdict {
        number: number_of_digits(number, b' '),
        place: number_of_digits(place, b':'),
    };
    if let (Some((_, name)), Some(job)) = (name.split_last(), room.get(..end)) {
        case(rt, name, job, expected);
    }
    behind
}

// The lines of the text to the next empty one; the text behind that.
fn rows<'a>(rt: &HostRuntime, text: &'a [u8], room: &mut [u8], start: usize) -> &'a [u8] {
    let mut rest = text;
    while let [first, behind @ ..] = rest {
        if *first == b'\n' {
            return behind;
        }
        rest = row(rt, rest, room, start);
    }
    rest
}

fn repeat(room: &mut [u8], from: usize, field: &[u8], times: usize) -> usize {
    let mut at = from;
    for _ in 0..times {
        at = put(room, at, field);
    }
    at
}

// A job of 1,000 tags with so many of one field and so many of another.
fn filled(room: &mut [u8], one: &[u8], m: usize, other: &[u8], n: usize) -> usize {
    let begun = put(room, 0, b"\x10\x00\x02\x03\xE8");
    let half = repeat(room, begun, one, m);
    repeat(room, half, other, n)
}

// All records that a job may have: the 4,001st, 01 and 02 together, comes behind them. The limit comes behind the body, and is no limit of questions.
fn records(room: &mut [u8]) -> usize {
    let begun = put(room, 0, b"\x10\x00\x02\x00\x02");
    repeat(room, begun, b"\x01\x00\x04\x00\x00\x00\x01", 4000)
}

// All questions: the 1,001st, 03 and 04 together, comes behind them.
fn questions(room: &mut [u8]) -> usize {
    filled(
        room,
        b"\x03\x00\x04\x03\xE7\x00\x00",
        500,
        b"\x04\x00\x04\x00\x00\x03\xE7",
        500,
    )
}

// All pairs that must differ: the 501st comes behind them.
fn differs(room: &mut [u8]) -> usize {
    let begun = put(room, 0, b"\x10\x00\x02\x03\xE8");
    repeat(room, begun, b"\x05\x00\x04\x00\x00\x03\xE7", 500)
}

// The longest job that states no U, of 46,508 bytes with its end.
fn longest(room: &mut [u8]) -> usize {
    let half = filled(
        room,
        b"\x02\x00\x06\x03\xE7\x00\x00\x03\xE7",
        4000,
        b"\x05\x00\x04\x00\x00\x03\xE7",
        500,
    );
    repeat(room, half, b"\x04\x00\x04\x00\x00\x03\xE7", 1000)
}

fn all(rt: &HostRuntime, text: &[u8], room: &mut [u8]) {
    let behind = rows(rt, text, room, 0);
    let full = records(room);
    let behind = rows(rt, behind, room, full);
    let full = questions(room);
    let behind = rows(rt, behind, room, full);
    let full = differs(room);
    let behind = rows(rt, behind, room, full);
    let full = longest(room);
    rows(rt, behind, room, full);
}

fn main(rt: HostRuntime) {
    let mut text = [0u8; 12288];
    let mut room = [0u8; 50000];
    match read_input(&rt, &mut text) {
        Ok(n) => all(&rt, &text[..n], &mut room),
        Err(_) => say(&rt, b"no vectors\n"),
    }
}
