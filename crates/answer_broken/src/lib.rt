// The answer to a question 06 as a field of the report: the earliest pair that must differ and is equal by the records before the question, with a reason and
// in edition 2 its sheets, or that there is none. Document 02, No. 1 and 9. Which list is a reason, the profile says. Rests on pairs, moment, profile, report_write,
// report_numbers and answer_sheets.
#![tactic(auto)]

ghost use Rattle.std.specs.Prelude.{◌+◌, ◌≤◌, length};
ghost use Rattle.job_field.specs.Items.{broken, room_for};
ghost use Rattle.job_field.specs.Reading.{items_in};
ghost use Rattle.report.specs.Report.{after_records};
ghost use Rattle.moment.specs.Posed.{head_of};
ghost use Rattle.pairs.specs.Breaking.{Breaking};
ghost use Rattle.answer_broken.specs.Breach.{Broke, Breached, Replied};

use answer_sheets::file_sheets;
use meaning::Tag;
use moment::Closed;
use pairs::{first_broken, pair_at};
use profile::Profile;
use report::INTACT;
use report_numbers::write_breach;
use report_write::write_bare;

// The number of a broken pair and why its tags are equal, with the sheets of that, as fields at a place of the room; the place behind them.
fn answer_breach<P: Profile>(
    job: &[u8],
    room: &mut [u8],
    work: &mut [u16],
    c: Closed,
    before: usize,
    out: usize,
    number: usize,
    s: Tag,
    t: Tag,
) -> usize
    requires { Broke job.now work.old room.old (head_of c) c.len c.joins before out number s.0 t.0 × P.rules.Asks (items_in job.now) }
    ensures { Breached P.rules job.now work.old room.old c.size c.len before out number s.0 t.0 work.new room.new result }
{
    match P::explain(work, c.size, c.len, c.joins, before, s, t) {
        Some(count) => {
            write_breach(room, out, number, work, count);
            file_sheets(job, room, work, c.sheeted, count, out + 5 + 2 * count)
        }
        None => out,
    }
}

// The answer to a 06, behind so many records and so many pairs.
pub fn answer_broken<P: Profile>(
    job: &[u8],
    room: &mut [u8],
    work: &mut [u16],
    c: Closed,
    before: usize,
    differs: usize,
    out: usize,
) -> usize
    requires { Breaking job.now work.old (head_of c) c.len c.joins before differs × (out + room_for (head_of c) (after_records before) broken ≤ length room.old) × P.rules.Asks (items_in job.now) }
    ensures { Replied P.rules job.now work.old room.old before differs out broken work.new room.new result }
{
    let number = first_broken(work, differs, before);
    if number == 0 {
        write_bare(room, out, INTACT);
        return out + 3;
    }
    let pair = pair_at(job, number);
    answer_breach::<P>(job, room, work, c, before, out, number, pair.s, pair.t)
}
