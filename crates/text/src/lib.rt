// The lines that tagcheck writes: those of a report, or the line of a refusal. Document 01, "The program". A job and its report go in, and the text comes
// out in a room of bytes; nothing here reads or writes a file. What a call answers is the text's length, where all of it stands at the front of the room, and none
// where it is longer than the room. Rests on job_field, job_read, text_line and text_field.
#![tactic(auto)]

ghost use Rattle.job_field.specs.Reading.{reading, head_in, items_in};
ghost use Rattle.text_line.specs.Put.{Put};
ghost use Rattle.text.specs.Lines.{lines_of, refusal_line, text_of};
ghost use Rattle.text.specs.Told.{Tells, Ended, Accepted};
ghost use Rattle.std.specs.Prelude.{length};
ghost use Rattle.text.specs.Answered.{Answered};

use job_field::{behind, read, sheeted};
use job_read::{Refusal, read_job};
use text_field::{passed, put_field};
use text_line::put_pair;

// The lines of an accepted job: field after field of the job, from behind the first one, with the report's fields beside them.
fn put_items(job: &[u8], report: &[u8], out: &mut [u8]) -> usize
    requires { Accepted job.now }
    ensures { Put (lines_of (head_in job.now).sheeted (items_in job.now) report.now) out.old 0 out.new result }
{
    let edition = sheeted(job);
    let mut at = behind(job, 0);
    let mut from = 0;
    let mut next = 0;
    while at < job.len() {
        let field = read(job, at);
        let rest = &report[from..];
        next = put_field(edition, field, rest, out, next);
        from += passed(edition, field, rest);
        at = behind(job, at);
    }
    next
}

// The length of a text that ends before a place, where it is whole in a room of so many bytes.
fn ending(next: usize, room: usize) -> Option<usize>
    ensures { Ended next room result }
{
    if next <= room { Some(next) } else { None }
}

// The single line of a refusal, by its number and place.
pub fn tell_refusal(number: u8, place: usize, out: &mut [u8]) -> Option<usize>
    ensures { Tells (refusal_line number place) out.old out.new result }
{
    let next = put_pair(out, 0, b'R', number as usize, place);
    ending(next, out.len())
}

// The lines of a job and its report; the line of the refusal, where reading refuses the job.
pub fn tell_report(job: &[u8], report: &[u8], out: &mut [u8]) -> Option<usize>
    ensures { Tells (text_of (reading job.now) report.now) out.old out.new result }
{
    match read_job(job) {
        Err(Refusal { fault, place }) => tell_refusal(u8::from(fault), place, out),
        Ok(_) => {
            let next = put_items(job, report, out);
            ending(next, out.len())
        }
    }
}

// The run answered a number, a place and the length of its report, which stands at the front of the room.
pub fn tell_answer(
    job: &[u8],
    room: &[u8],
    number: u8,
    place: usize,
    size: usize,
    out: &mut [u8],
) -> Option<usize>
    ensures { Answered job.now room.now number place size out.old out.new result }
{
    if number == 0 {
        if size <= room.len() {
            tell_report(job, &room[..size], out)
        } else {
            tell_report(job, room, out)
        }
    } else {
        tell_refusal(number, place, out)
    }
}
