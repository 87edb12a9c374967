// tagpasses: reads a job from standard input, closes all its records by passes, and writes the line `P count` with the leader of every tag behind it, or the line of a
// refusal. Document 02, No. 12. Its one argument is the limit, or the word --watch: then each pass that changes something has a line of its own before that, with the
// classes that it changed. It only reads, calls and writes: the calls are slow_own's. Rests on that, on text_line, on serving and on console.
#![tactic(auto)]

use console::{is_given, read_argument, write_failure};
use serving::{JOB, Program, Refused, WORK};
use slow_own::{Refusal, count_passes, watch_passes};
use text_line::{put, put_number, put_parted};

// 2,000 bytes of room are enough for every job; 4,100 bytes hold the longest line, with a number before it, a thousand tags of three digits and a sign with each.
const ROOM: usize = 2000;

const LINE: usize = 4100;

// No job has so many passes.
const NEVER: usize = 1000;

// Above this a limit is this.
const HIGHEST: usize = 999999;

// A number of two bytes.
fn number(pair: &[u8]) -> usize {
    match pair {
        [high, low] => usize::from(u16::from_be_bytes([*high, *low])),
        _ => 0,
    }
}

// N stands in bytes 3 and 4 of a job that was accepted.
fn tags_of(job: &[u8]) -> usize {
    job.get(3..5).map_or(0, number)
}

// The leaders of all tags, each behind a space.
fn put_leaders(out: &mut [u8], from: usize, leaders: &[u8], tags: usize) -> usize {
    let mut at = from;
    for leader in leaders.chunks_exact(2).take(tags) {
        at = put_parted(out, at, number(leader));
    }
    at
}

// A whole line goes to standard output.
fn write(program: Program<'_>, line: &[u8], end: usize) {
    match line.get(..end) {
        Some(whole) => program.write(whole),
        None => program.complain("standard output cannot be written"),
    }
}

// The count, and the leaders.
fn tell(program: Program<'_>, leaders: &[u8], tags: usize, passes: usize) {
    let mut line = [0u8; LINE];
    let first = put(&mut line, 0, b'P');
    let second = put_parted(&mut line, first, passes);
    let third = put_leaders(&mut line, second, leaders, tags);
    let end = put(&mut line, third, b'\n');
    write(program, &line, end);
}

// The line of a refusal.
fn refuse(program: Program<'_>, refusal: Refusal) {
    program.with_line(Refused::from(refusal), |line| program.write(line));
}

// Lends the call its room and the work table.
fn count(program: Program<'_>, job: &[u8], limit: usize) {
    let mut room = [0u8; ROOM];
    let mut work = [0u16; WORK];
    match count_passes(job, &mut room, &mut work, limit) {
        Ok(passes) => tell(program, &room, tags_of(job), passes),
        Err(refusal) => refuse(program, refusal),
    }
}

// The leaders of the classes that have changed are marked. Where a tag has another leader than before, its leader's class has changed: two classes that become one
// have the leader of one of them.
fn mark_all(marks: &mut [bool], before: &[u8], now: &[u8], tags: usize) {
    let pairs = before.chunks_exact(2).zip(now.chunks_exact(2));
    for (old, new) in pairs.take(tags) {
        if old != new {
            if let Some(mark) = marks.get_mut(number(new)) {
                *mark = true;
            }
        }
    }
}

// A class: its leader, and its other tags in order, each behind the sign of equality.
fn put_class(out: &mut [u8], from: usize, now: &[u8], tags: usize, leader: usize) -> usize {
    let mut at = put_parted(out, from, leader);
    for (tag, its) in now.chunks_exact(2).take(tags).enumerate() {
        if tag != leader && number(its) == leader {
            let next = put(out, at, b'=');
            at = put_number(out, next, tag);
        }
    }
    at
}

// The classes that are marked, by their leaders.
fn put_classes(out: &mut [u8], from: usize, marks: &[bool], now: &[u8], tags: usize) -> usize {
    let mut at = from;
    for (leader, marked) in marks.iter().take(tags).enumerate() {
        if *marked {
            at = put_class(out, at, now, tags, leader);
        }
    }
    at
}

// The line of pass n: the classes that it changed.
fn show(program: Program<'_>, n: usize, before: &[u8], now: &[u8], tags: usize) {
    let mut marks = [false; NEVER];
    mark_all(&mut marks, before, now, tags);
    let mut line = [0u8; LINE];
    let first = put_number(&mut line, 0, n);
    let second = put(&mut line, first, b':');
    let third = put_classes(&mut line, second, &marks, now, tags);
    let end = put(&mut line, third, b'\n');
    write(program, &line, end);
}

// Pass after pass, each with its line, until one changes nothing; then the count and the leaders. After n passes those of the single classes, or of pass n, are in `before`.
fn watch_all(program: Program<'_>, job: &[u8], before: &mut [u8; ROOM], work: &mut [u16]) {
    let tags = tags_of(job);
    let mut now = [0u8; ROOM];
    for n in 0..NEVER {
        let made = watch_passes(job, &mut now, work, n + 1);
        if made.unwrap_or(0) != n + 1 {
            tell(program, before, tags, n);
            return;
        }
        show(program, n + 1, before, &now, tags);
        *before = now;
    }
}

// Begins with the single classes, after no pass.
fn watch(program: Program<'_>, job: &[u8]) {
    let mut before = [0u8; ROOM];
    let mut work = [0u16; WORK];
    match watch_passes(job, &mut before, &mut work, 0) {
        Ok(_) => watch_all(program, job, &mut before, &mut work),
        Err(refusal) => refuse(program, refusal),
    }
}

// What is asked for: a limit, or to watch.
#[derive(Clone, Copy)]
enum Ask {
    Limit(usize),
    Watch,
}

// Why an argument asks for neither.
#[derive(Clone, Copy)]
enum Unasked {
    Empty,
    NoNumber,
}

impl TryFrom<&[u8]> for Ask {
    type Error = Unasked;

    fn try_from(word: &[u8]) -> Result<Ask, Unasked> {
        match word {
            [] => Err(Unasked::Empty),
            b"--watch" => Ok(Ask::Watch),
            _ => Ok(Ask::Limit(limit_of(word)?)),
        }
    }
}

// A limit is decimal digits and nothing else. No job has so many passes as the highest limit, so every number above it is that.
fn limit_of(word: &[u8]) -> Result<usize, Unasked> {
    match str::from_utf8(word) {
        Ok(digits) if digits.bytes().all(|b| b.is_ascii_digit()) => {
            Ok(digits.parse::<usize>().unwrap_or(HIGHEST).min(HIGHEST))
        }
        _ => Err(Unasked::NoNumber),
    }
}

// In a frame of its own, whose rooms a complaint does not need.
#[inline(never)]
fn serve(program: Program<'_>, ask: Ask) {
    let mut kept = [0u8; JOB];
    let Some(job) = program.input(&mut kept) else {
        return;
    };
    match ask {
        Ask::Limit(limit) => count(program, job, limit),
        Ask::Watch => watch(program, job),
    }
}

// Behind the program's own name stands one argument and no second.
fn main(rt: HostRuntime) {
    let program = Program {
        runtime: &rt,
        name: "tagpasses",
    };
    let mut word = [0u8; 4096];
    if !is_given(&rt, 1) || is_given(&rt, 2) {
        program.complain("a number is wanted, the limit, or --watch");
        return;
    }
    let length = match read_argument(&rt, 1, &mut word) {
        Ok(n) => n,
        Err(error) => {
            write_failure(&rt, b"tagpasses: the limit", &error);
            return;
        }
    };
    match Ask::try_from(&word[..length]) {
        Ok(ask) => serve(program, ask),
        Err(Unasked::Empty) => program.complain("a number is wanted, the limit, or --watch"),
        Err(Unasked::NoNumber) => program.complain("the limit is no number"),
    }
}
