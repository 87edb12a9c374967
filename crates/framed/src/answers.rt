// All that is written of a job and of a report. Rests on haltzurme_own.
use crate::frames::{numbers_of, put_answer, put_bytes, put_loan, put_number, tell};
use crate::rubbish::{
    CLEAN, Rubbish, look_room, look_table, record_of, rubbish_of, soil_room, soil_table,
};
use console::write_output;
use haltzurme_own::{Refusal, recheck_over, run_over};

// The first so many, or all where they are fewer.
pub fn front(s: &[u8], n: usize) -> &[u8] {
    if n <= s.len() { &s[..n] } else { s }
}

fn front_room(s: &mut [u8], n: usize) -> &mut [u8] {
    if n <= s.len() { &mut s[..n] } else { s }
}

fn front_table(s: &mut [u16], n: usize) -> &mut [u16] {
    if n <= s.len() { &mut s[..n] } else { s }
}

fn recheck_with(rt: &HostRuntime, job: &[u8], report: &[u8], work: &mut [u16], r: Rubbish) {
    soil_table(work, r);
    let found = recheck_over(job, report, work, record_of(r));
    look_table(rt, work, found, r);
    put_answer(rt, b'C', found);
}

// Rechecks a report over so many places of a table of rubbish.
pub fn recheck_at(rt: &HostRuntime, job: &[u8], report: &[u8], places: usize, r: Rubbish) {
    let mut space = [0u16; 32832];
    recheck_with(rt, job, report, front_table(&mut space, places), r);
}

fn run_with(
    rt: &HostRuntime,
    job: &[u8],
    room: &mut [u8],
    work: &mut [u16],
    r: Rubbish,
) -> Result<usize, Refusal> {
    soil_table(work, r);
    let ran = run_over(job, room, work, record_of(r));
    look_table(rt, work, ran.map(|_| ()), r);
    ran
}

// Runs a job over so many places of a table of rubbish, with rubbish in the room.
fn run_at(
    rt: &HostRuntime,
    job: &[u8],
    room: &mut [u8],
    places: usize,
    r: Rubbish,
) -> Result<usize, Refusal> {
    let mut space = [0u16; 32832];
    soil_room(room, r);
    let ran = run_with(rt, job, room, front_table(&mut space, places), r);
    look_room(rt, room, ran.unwrap_or(0), r);
    ran
}

fn again(
    rt: &HostRuntime,
    job: &[u8],
    report: &[u8],
    clean: &mut [u8],
    places: usize,
    ran: Result<usize, Refusal>,
) {
    let other = run_at(rt, job, clean, places, rubbish_of(CLEAN));
    tell(
        rt,
        numbers_of(ran.map(|_| ())) == numbers_of(other.map(|_| ())),
    );
    tell(rt, report == front(clean, other.unwrap_or(0)));
}

// Where nothing lent is dirty the run must say the same, byte for byte.
fn alike(
    rt: &HostRuntime,
    job: &[u8],
    report: &[u8],
    size: usize,
    places: usize,
    ran: Result<usize, Refusal>,
) {
    let mut space = [0u8; 65536];
    again(rt, job, report, front_room(&mut space, size), places, ran);
}

// What is written of a run, and of its recheck.
fn put_run(rt: &HostRuntime, job: &[u8], report: &[u8], places: usize, r: Rubbish) {
    put_number(rt, report.len());
    let _ = write_output(rt, report);
    recheck_at(rt, job, report, places, r);
}

fn answer_in(rt: &HostRuntime, job: &[u8], room: &mut [u8], places: usize, r: Rubbish) {
    let ran = run_at(rt, job, room, places, r);
    let report = front(room, ran.unwrap_or(0));
    alike(rt, job, report, room.len(), places, ran);
    put_answer(rt, b'R', ran.map(|_| ()));
    put_run(rt, job, report, places, r);
}

// All that is written of a job with one loan.
pub fn answer(rt: &HostRuntime, job: &[u8], size: usize, places: usize, r: Rubbish) {
    let mut space = [0u8; 65536];
    put_bytes(rt, b"J", job);
    put_loan(rt, size, places);
    answer_in(rt, job, front_room(&mut space, size), places, r);
}
