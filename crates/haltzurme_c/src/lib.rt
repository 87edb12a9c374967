// The tool for C: the run and the recheck, those of the harness profile, the passes and the translation of a script on plain pointers and lengths. A slice is passed as a
// pointer and then a length; include/haltzurme.h declares the functions. They lend a record table of their own, or need none, and have no condition on their caller. Rests on
// call_look, haltzurme_own, harness_own, slow_own and script_call.
#![tactic(auto)]

ghost use Rattle.std.specs.Prelude.{◌≡◌, ℕ, true, false};
ghost use Rattle.call_look.specs.Seen.{number_of, place_of, length_of};
ghost use Rattle.haltzurme_own.specs.Plain.{RanAlone, RecheckedAlone};
ghost use Rattle.slow_own.specs.Plain.{CountedAlone};
ghost use Rattle.script_call.specs.Translating.{Answered};
ghost use Rattle.harness_own.specs.Own.{HarnessRanAlone, HarnessRecheckedAlone};

use call_look::Refusal;
use haltzurme_own::{recheck_report, run_job};
use harness_own::{recheck_sheet, run_sheet};
use script_call::translate_beside;
use slow_own::{count_passes, watch_passes};

// A call's number; its place is written, and its length or count: 0 where there is none.
fn write_out(answer: Result<usize, Refusal>, place: &mut usize, size: &mut usize) -> u8
    ensures number { result ≡ number_of answer }
    ensures place { place.new ≡ place_of answer }
    ensures size { size.new ≡ length_of answer }
{
    match answer {
        Ok(length) => {
            *place = 0;
            *size = length;
            0
        }
        Err(refusal) => {
            *place = refusal.place;
            *size = 0;
            u8::from(refusal.reason)
        }
    }
}

// The same of a call that has no length.
fn write_place(answer: Result<(), Refusal>, place: &mut usize) -> u8
    ensures number { result ≡ number_of answer }
    ensures place { place.new ≡ place_of answer }
{
    match answer {
        Ok(()) => {
            *place = 0;
            0
        }
        Err(refusal) => {
            *place = refusal.place;
            u8::from(refusal.reason)
        }
    }
}

// Answers a job: the number is the result; the place and the report's length are written.
#[unsafe(no_mangle)]
pub extern "C" fn haltzurme_run(
    job: &[u8],
    room: &mut [u8],
    work: &mut [u16],
    place: &mut usize,
    size: &mut usize,
) -> u8
    ensures { RanAlone job.now room.old work.old result place.new size.new room.new work.new }
{
    write_out(run_job(job, room, work), place, size)
}

// Rechecks a report: the number is the result; the place is written.
#[unsafe(no_mangle)]
pub extern "C" fn haltzurme_recheck(
    job: &[u8],
    report: &[u8],
    work: &mut [u16],
    place: &mut usize,
) -> u8
    ensures { RecheckedAlone job.now report.now work.old result place.new work.new }
{
    write_place(recheck_report(job, report, work), place)
}

// Closes all records of a job by passes: the number is the result; the place and the count are written.
#[unsafe(no_mangle)]
pub extern "C" fn haltzurme_passes(
    job: &[u8],
    room: &mut [u8],
    work: &mut [u16],
    limit: usize,
    place: &mut usize,
    passes: &mut usize,
) -> u8
    ensures { CountedAlone job.now room.old work.old limit false result place.new passes.new room.new work.new }
{
    write_out(count_passes(job, room, work, limit), place, passes)
}

// Makes at most so many passes: the number is the result; the place and how many were made are written.
#[unsafe(no_mangle)]
pub extern "C" fn haltzurme_watch(
    job: &[u8],
    room: &mut [u8],
    work: &mut [u16],
    most: usize,
    place: &mut usize,
    passes: &mut usize,
) -> u8
    ensures { CountedAlone job.now room.old work.old most true result place.new passes.new room.new work.new }
{
    write_out(watch_passes(job, room, work, most), place, passes)
}

// Reads a script: the number is the result; the place and the job's length are written. It is the call of a record table with as many places as are named.
#[unsafe(no_mangle)]
pub extern "C" fn haltzurme_script(
    script: &[u8],
    room: &mut [u8],
    work: &mut [u16],
    place: &mut usize,
    size: &mut usize,
) -> u8
    ensures { Answered script.now room.old work.old result place.new size.new room.new work.new }
{
    match translate_beside(script, room, work, script_call::PLACES) {
        Ok(length) => {
            *place = 0;
            *size = length;
            0
        }
        Err(refusal) => {
            *place = refusal.place;
            *size = 0;
            u8::from(refusal.reason)
        }
    }
}

// Answers a plain harness sheet, as haltzurme_run answers a job.
#[unsafe(no_mangle)]
pub extern "C" fn haltzurme_harness_run(
    job: &[u8],
    room: &mut [u8],
    work: &mut [u16],
    place: &mut usize,
    size: &mut usize,
) -> u8
    ensures { HarnessRanAlone job.now room.old work.old result place.new size.new room.new work.new }
{
    write_out(run_sheet(job, room, work), place, size)
}

// Rechecks a report of a plain harness sheet.
#[unsafe(no_mangle)]
pub extern "C" fn haltzurme_harness_recheck(
    job: &[u8],
    report: &[u8],
    work: &mut [u16],
    place: &mut usize,
) -> u8
    ensures { HarnessRecheckedAlone job.now report.now work.old result place.new work.new }
{
    write_place(recheck_sheet(job, report, work), place)
}
