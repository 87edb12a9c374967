// Tags that must differ, while questions are answered: when the tags of each pair became equal, kept in the table once the pair is passed, which pair is the
// earliest that is broken, and its tags. Document 02, No. 1. Rests on meaning, job_field, table, moment and report.
#![tactic(auto)]

ghost use Rattle.std.specs.Prelude.{◌≡◌, ◌≤◌, ◌<◌, length};
ghost use Rattle.meaning.specs.Limits.{most_differs};
ghost use Rattle.job_field.specs.Items.{pairs_noted};
ghost use Rattle.job_field.specs.Answer.{note_said, said};
ghost use Rattle.table.specs.Map.{records_in};
ghost use Rattle.table.specs.Places.{Large};
ghost use Rattle.moment.specs.Posed.{head_of, Posed};
ghost use Rattle.pairs.specs.Came.{Came};
ghost use Rattle.pairs.specs.Marks.{Stored, Marking, Noted, Scanned};
ghost use Rattle.pairs.specs.Found.{pairs_at, first_in, pair_of, Sought, Found};

use job_field::{Fault, Field, Line, behind, pairs_in, read};
use meaning::{NO_TAG, Tag};
use moment::{Closed, Question};
use table::{put_since, since};

// The first k such that s and t are equal by records 1 to k, or a number above the records before the question.
pub fn came(work: &[u16], q: Question) -> usize
    requires { Posed work.now q }
    ensures { Came (records_in q.len work.now) q.before q.s.0 q.t.0 result × (result < 65536) }
{
    let s = q.s;
    let t = q.t;
    if s == t {
        return 0;
    }
    match moment::met(work, s, t) {
        Some(b) => moment::made(work, b),
        None => q.before + 1,
    }
}

// When the tags of a pair became equal is kept at its place, by all records.
fn mark(work: &mut [u16], c: Closed, i: usize, s: Tag, t: Tag)
    requires { Posed work.old (record { size = c.size; unit = c.unit; sheeted = c.sheeted; len = c.len; joins = c.joins; before = c.len; s = s; t = t }) × (i < most_differs) }
    ensures { Stored work.old work.new c.len i s.0 t.0 }
{
    let k = came(
        work,
        Question {
            size: c.size,
            unit: c.unit,
            sheeted: c.sheeted,
            len: c.len,
            joins: c.joins,
            before: c.len,
            s,
            t,
        },
    );
    put_since(work, i, k);
}

// A note is passed, where so many pairs stand before it: a pair is marked, a record is not.
pub fn mark_note(l: Line, work: &mut [u16], c: Closed, i: usize)
    requires { Marking work.old (head_of c) c.len c.joins i (note_said l) }
    ensures { Noted work.old work.new c.len i (note_said l) }
{
    match l {
        Line::Equation(_, _, _) => {}
        Line::Application(_, _, _, _) => {}
        Line::Differ(s, t) => {
            mark(work, c, i, s, t);
        }
    }
}

// The number of the earliest of so many pairs whose tags are equal by so many records, or 0.
pub fn first_broken(work: &[u16], count: usize, before: usize) -> usize
    requires { Large work.now × (count ≤ most_differs) }
    ensures { Scanned work.now count before result }
{
    for i in 0..count {
        if since(work, i) <= before {
            return i + 1;
        }
    }
    0
}

// The two tags of a pair.
#[derive(Clone, Copy)]
pub struct Differing {
    pub s: Tag,
    pub t: Tag,
}

// How many pairs a field has.
fn pairs_here(field: Result<Field, Fault>) -> u16
    ensures { result ≡ length (pairs_at (said field)) }
{
    match field {
        Ok(Field::Noted(l)) => pairs_in(l),
        _ => 0,
    }
}

// The pair of a note, and of a field; two noughts where there is none.
fn pair_in(l: Line) -> Differing
    ensures { pair_of result ≡ first_in (pairs_noted (note_said l)) }
{
    match l {
        Line::Equation(_, _, _) => Differing {
            s: NO_TAG,
            t: NO_TAG,
        },
        Line::Application(_, _, _, _) => Differing {
            s: NO_TAG,
            t: NO_TAG,
        },
        Line::Differ(s, t) => Differing { s, t },
    }
}

fn pair_here(field: Result<Field, Fault>) -> Differing
    ensures { pair_of result ≡ first_in (pairs_at (said field)) }
{
    match field {
        Ok(Field::Noted(l)) => pair_in(l),
        _ => Differing {
            s: NO_TAG,
            t: NO_TAG,
        },
    }
}

// The pair of a number.
pub fn pair_at(job: &[u8], number: usize) -> Differing
    requires { Sought job.now number }
    ensures { Found job.now number result }
{
    let mut at = behind(job, 0);
    let mut left = number;
    loop {
        let field = read(job, at);
        let here = usize::from(pairs_here(field));
        if left <= here {
            return pair_here(field);
        }
        left -= here;
        at = behind(job, at);
    }
}
