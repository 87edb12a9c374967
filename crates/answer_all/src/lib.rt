// The questions of an accepted job, answered one after the other: each by the joins that were made before it, as a field of the
// report, for every profile. Document 01, "The job and the report"; document 02, No. 1. Rests on job_field, all_close, report_write, moment, pairs, profile, answer_ask,
// answer_explain, answer_broken and answer_why.
#![tactic(auto)]

ghost use Rattle.std.specs.Prelude.{◌≡◌, ℕ, ◌+◌, ◌*◌, ◌-◌, ◌≤◌, ◌<◌, min, length};
ghost use Rattle.job_field.specs.Items.{start, needed_room};
ghost use Rattle.job_field.specs.Reading.{head_in, items_in};
ghost use Rattle.job_field.specs.Answer.{question_said, said};
ghost use Rattle.moment.specs.Posed.{head_of};
ghost use Rattle.profile.specs.Plain.{plain_rules};
ghost use Rattle.answer_broken.specs.Breach.{Replied};
ghost use Rattle.answer_all.specs.Asking.{is_end_field, Asked, Asking, Meeting, Onward, Told, Ready, Responded};

use all_close::close;
use answer_ask::answer_ask;
use answer_broken::answer_broken;
use answer_explain::answer_explain;
use answer_why::answer_why;
use job_field::{Fault, Field, Query, behind, pairs_in, read, sheeted, stands_for, units};
use moment::Closed;
use pairs::mark_note;
use profile::{Plain, Profile};
use report_write::write_totals;

// How far the answers have come: the place in the job, the place in the room, and the records and the pairs that must differ passed.
#[derive(Clone, Copy)]
pub struct Spot {
    pub at: usize,
    pub out: usize,
    pub before: usize,
    pub differs: usize,
}

// A question, as a field at a place of the room; the place behind it.
fn answer_question<P: Profile>(
    q: Query,
    job: &[u8],
    room: &mut [u8],
    work: &mut [u16],
    c: Closed,
    before: usize,
    differs: usize,
    out: usize,
) -> usize
    requires { Asked job.now work.old room.old (head_of c) c.len c.joins before differs out (question_said q) × P.rules.Asks (items_in job.now) }
    ensures { Replied P.rules job.now work.old room.old before differs out (question_said q) work.new room.new result }
{
    match q {
        Query::Ask(s, t) => answer_ask(room, work, c, before, out, s, t),
        Query::Explain(s, t) => answer_explain::<P>(job, room, work, c, before, out, s, t),
        Query::Broken => answer_broken::<P>(job, room, work, c, before, differs, out),
        Query::Why(s, t) => answer_why(room, work, c, before, out, s, t),
    }
}

// One field of the job, with the place behind it: a note is passed, a question answered.
fn answer_field<P: Profile>(
    field: Result<Field, Fault>,
    job: &[u8],
    room: &mut [u8],
    work: &mut [u16],
    c: Closed,
    p: Spot,
    next: usize,
) -> Spot
    requires { Meeting job.now work.old room.old (head_of c) c.len c.joins p (said field) × P.rules.Asks (items_in job.now) }
    ensures { Onward P.rules job.now work.old room.old c.len next p result work.new room.new (said field) }
{
    let out = p.out;
    let before = p.before;
    let differs = p.differs;
    match field {
        Ok(Field::Noted(l)) => {
            mark_note(l, work, c, differs);
            Spot {
                at: next,
                out,
                before: before + usize::from(stands_for(l)),
                differs: differs + usize::from(pairs_in(l)),
            }
        }
        Ok(Field::Posed(q)) => {
            let end = answer_question::<P>(q, job, room, work, c, before, differs, out);
            Spot {
                at: next,
                out: end,
                before,
                differs,
            }
        }
        Ok(Field::Header(_)) => p,
        Ok(Field::End) => p,
        Err(_) => p,
    }
}

// Whether the job ends with a field.
fn is_end(field: Result<Field, Fault>) -> bool
    ensures { result ≡ is_end_field (said field) }
{
    matches!(field, Ok(Field::End))
}

// All questions of the job; the place in the room behind the last answer.
pub fn answer_all<P: Profile>(job: &[u8], room: &mut [u8], work: &mut [u16], c: Closed) -> usize
    requires { Asking job.now work.old (head_of c) c.len c.joins × (needed_room (head_in job.now) start (items_in job.now) ≤ length room.old) × P.rules.Asks (items_in job.now) }
    ensures { Told P.rules job.now work.old room.old (head_of c) c.len c.joins work.new room.new result }
{
    let mut p = Spot {
        at: behind(job, 0),
        out: 0,
        before: 0,
        differs: 0,
    };
    loop {
        let at = p.at;
        let field = read(job, at);
        if is_end(field) {
            return p.out;
        }
        p = answer_field::<P>(field, job, room, work, c, p, behind(job, at));
    }
}

// The whole report of a job whose records stand in the columns: they are closed, the questions answered and the totals written.
// Answers the report's length.
pub fn respond_by<P: Profile>(
    job: &[u8],
    room: &mut [u8],
    work: &mut [u16],
    size: usize,
    len: usize,
) -> usize
    requires { Ready job.now room.old work.old size len × P.rules.Asks (items_in job.now) }
    ensures { Responded P.rules job.now room.old work.old room.new work.new result }
{
    let unit = usize::from(units(job));
    let edition = sheeted(job);
    let t = close(work, size, len);
    let joins = t.joins;
    let end = answer_all::<P>(
        job,
        room,
        work,
        Closed {
            size,
            unit,
            sheeted: edition,
            len,
            joins,
        },
    );
    write_totals(room, end, size - joins, t.idle);
    end + 7
}

// The same for the plain profile.
pub fn respond(job: &[u8], room: &mut [u8], work: &mut [u16], size: usize, len: usize) -> usize
    requires { Ready job.now room.old work.old size len }
    ensures { Responded plain_rules job.now room.old work.old room.new work.new result }
{
    respond_by::<Plain>(job, room, work, size, len)
}
