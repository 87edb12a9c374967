// framed: many jobs and reports in one process, for the comparison with the second program; compare/README.md, "Many jobs in one process", has the frames.
// Before each call room and tables are filled with rubbish that differs from call to call, and after it room and work table are looked at: where they did
// not end as document 01 says, "What is lent, and each refusal", a frame X tells of it. No contract says what is written: the second program judges that.
// This file reads the stream and says what is lent for each frame. Rests on haltzurme_own, records, job_read and console.
#![tactic(auto)]

use answers::{answer, front, recheck_at};
use console::{read_input, write_error, write_output};
use frames::put_bytes;
use job_read::read_job;
use rubbish::rubbish_of;

mod answers;
mod frames;
mod rubbish;

// Document 01's named places of the work table, and the room that tagcheck lends.
pub const NAMED: usize = 32768;

const ROOM: usize = 60000;

// Where a stream that goes on stands: the length of the job at hand, and the places of the table that were lent for it.
#[derive(Clone, Copy)]
struct Stand {
    length: usize,
    places: usize,
}

// The room that a job needs, where it is no more than can be lent; 0 where it is refused.
fn needed(job: &[u8]) -> usize {
    read_job(job).map_or(0, |known| known.room.min(65536))
}

// The room and the places of the work table that are lent for a job.
#[derive(Clone, Copy)]
struct Loan {
    size: usize,
    places: usize,
}

// The room that the job needs or more, and the table's named places or more.
fn enough(need: usize, count: usize) -> Loan {
    let sizes = [ROOM, need];
    let more = NAMED + count % 64;
    let places = [NAMED, more, more];
    Loan {
        size: sizes[count % 2],
        places: places[count % 3],
    }
}

// Too little: a byte of room less, a number of the table less, most of the table missing, most of the room missing.
fn too_little(need: usize, count: usize) -> Loan {
    let kind = count / 4 % 4;
    let sizes = [need.saturating_sub(1), ROOM, need, count % 8];
    let places = [NAMED, NAMED - 1, count % 1000, NAMED];
    Loan {
        size: sizes[kind],
        places: places[kind],
    }
}

// Every fourth frame, where it is a job, is answered with too little first.
fn with_job(rt: &HostRuntime, job: &[u8], count: usize) -> Stand {
    let need = needed(job);
    if count % 4 == 1 {
        let poor = too_little(need, count);
        answer(rt, job, poor.size, poor.places, rubbish_of(count));
    }
    let loan = enough(need, count);
    answer(rt, job, loan.size, loan.places, rubbish_of(count));
    Stand {
        length: job.len(),
        places: loan.places,
    }
}

// A letter that is no frame's has the judge refuse the whole stream.
fn broken(rt: &HostRuntime) -> Option<Stand> {
    let _ = write_output(rt, b"!");
    let _ = write_error(rt, b"framed: the stream is broken\n");
    None
}

// How many bytes came, or a number that is none of theirs.
fn fetch(rt: &HostRuntime, part: &mut [u8]) -> usize {
    read_input(rt, part).unwrap_or(usize::MAX)
}

// Whether so many bytes came, and there is space for them.
fn fetch_front(rt: &HostRuntime, space: &mut [u8], n: usize) -> bool {
    if n <= space.len() {
        fetch(rt, &mut space[..n]) == n
    } else {
        false
    }
}

fn job_frame(rt: &HostRuntime, job: &mut [u8], n: usize, count: usize) -> Option<Stand> {
    if fetch_front(rt, job, n) {
        Some(with_job(rt, front(job, n), count))
    } else {
        broken(rt)
    }
}

fn with_report(rt: &HostRuntime, job: &[u8], report: &[u8], s: Stand, count: usize) {
    put_bytes(rt, b"P", report);
    recheck_at(
        rt,
        front(job, s.length),
        report,
        s.places,
        rubbish_of(count),
    );
}

fn report_frame(
    rt: &HostRuntime,
    job: &[u8],
    report: &mut [u8],
    n: usize,
    s: Stand,
    count: usize,
) -> Option<Stand> {
    if fetch_front(rt, report, n) {
        with_report(rt, job, front(report, n), s, count);
        Some(s)
    } else {
        broken(rt)
    }
}

// A number of four bytes, high byte first.
fn number(a: u8, b: u8, c: u8, d: u8) -> usize {
    usize::from(a) * 16777216 + usize::from(b) * 65536 + usize::from(c) * 256 + usize::from(d)
}

// The head of a frame: how many of its bytes came, its letter where all did, and the bytes behind it.
#[derive(Clone, Copy)]
struct Head {
    got: usize,
    letter: u8,
    size: usize,
}

fn read_head(rt: &HostRuntime) -> Head {
    let mut space = [0u8; 5];
    let got = fetch(rt, &mut space);
    let letter = if got == 5 { space[0] } else { b'!' };
    Head {
        got,
        letter,
        size: number(space[1], space[2], space[3], space[4]),
    }
}

// A stream ends in front of a head, and has no other letters than these.
fn turn(
    rt: &HostRuntime,
    job: &mut [u8],
    report: &mut [u8],
    s: Stand,
    count: usize,
) -> Option<Stand> {
    let head = read_head(rt);
    if head.letter == b'J' {
        job_frame(rt, job, head.size, count)
    } else if head.letter == b'P' {
        report_frame(rt, job, report, head.size, s, count)
    } else if head.got == 0 {
        None
    } else {
        broken(rt)
    }
}

// Nothing says that a stream ends, so the frames are counted up to a number that no stream has.
fn serve(rt: &HostRuntime, job: &mut [u8], report: &mut [u8]) {
    let mut s = Stand {
        length: 0,
        places: NAMED,
    };
    for count in 0..usize::MAX {
        match turn(rt, job, report, s, count) {
            Some(next) => {
                s = next;
            }
            None => {
                return;
            }
        }
    }
}

// No report here is longer than 300,000. Their bytes are lent once, since filling them takes longer than a recheck.
fn with_reports(rt: &HostRuntime, job: &mut [u8]) {
    let mut space = [0u8; 300000];
    serve(rt, job, &mut space);
}

// 54,511 bytes, one more than the longest job allowed: one of more than 54,510 is refused whatever its length.
fn main(rt: HostRuntime) {
    let mut space = [0u8; 54511];
    with_reports(&rt, &mut space);
}
