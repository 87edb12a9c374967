// The way of a job's records: found in its bytes one after the other, stored in the record table, and loaded from there into the work table's
// columns. Document 01, "The job and the report" and "What is lent, and each refusal". Rests on job_field, records and table.
#![tactic(auto)]

ghost use Rattle.std.specs.Prelude.{◌≡◌, ◌<◌, ◌≤◌, length};
ghost use Rattle.meaning.specs.Following.{eq, app};
ghost use Rattle.meaning.specs.Limits.{most_records};
ghost use Rattle.table.specs.Places.{Large};
ghost use Rattle.job_field.specs.Reading.{field_standing};
ghost use Rattle.job_field.specs.Answer.{note_said};
ghost use Rattle.records.specs.Table.{place_of};
ghost use Rattle.records_fill.specs.Seeking.{found_in, found_at, no_record_found, Seeks};
ghost use Rattle.records_fill.specs.Filling.{Filled};
ghost use Rattle.records_fill.specs.Loading.{carry, Loadable, Carried};
ghost use Rattle.records_fill.specs.Handing.{Handable, Handed};

use job_field::{Field, Line, behind, read};
use meaning::{NO_TAG, Tag};
use records::{Record, fetch, store};
use table::{put_application, put_equation, record_at};

// The records of a job as the cursor meets them: the next one at a place, with what is no record passed over, as it stands in the record table.
// Document 01, "The job and the report".

// What the cursor found at a place: a field that is passed over (the first one, a question or a note that stands for no record: `question`
// is true for each), or a record as it stands in the record table; and where the next field stands.
#[derive(Clone, Copy)]
pub struct Found {
    pub question: bool,
    pub place: Record,
    pub next: usize,
}

// How a = b stands in a place.
fn equation(a: Tag, b: Tag, sheet: u16) -> Record
    ensures { result ≡ place_of (eq a.0 b.0) sheet }
{
    Record {
        kind: 1,
        a: a,
        b: b,
        c: NO_TAG,
        sheet,
    }
}

// How f(a, b) = c stands in a place.
fn application(a: Tag, b: Tag, c: Tag, sheet: u16) -> Record
    ensures { result ≡ place_of (app a.0 b.0 c.0) sheet }
{
    Record {
        kind: 2,
        a: a,
        b: b,
        c: c,
        sheet,
    }
}

// No record was found.
fn no_record(question: bool, next: usize) -> Found
    ensures { result ≡ no_record_found question next }
{
    Found {
        question,
        place: Record {
            kind: 0,
            a: NO_TAG,
            b: NO_TAG,
            c: NO_TAG,
            sheet: 0,
        },
        next,
    }
}

// What a note gives, where the next field stands at `next`.
fn note_found(l: Line, next: usize) -> Found
    ensures { result ≡ found_in next (note_said l) }
{
    match l {
        Line::Equation(a, b, h) => Found {
            question: false,
            place: equation(a, b, h),
            next,
        },
        Line::Application(a, b, c, h) => Found {
            question: false,
            place: application(a, b, c, h),
            next,
        },
        Line::Differ(_, _) => no_record(true, next),
    }
}

// What stands at a place.
fn look(job: &[u8], at: usize) -> Found
    ensures { result ≡ found_at job.now at (field_standing job.now at) }
{
    match read(job, at) {
        Ok(Field::Noted(l)) => note_found(l, behind(job, at)),
        Ok(Field::Posed(_)) => no_record(true, behind(job, at)),
        Ok(Field::Header(_)) => no_record(true, behind(job, at)),
        Ok(Field::End) | Err(_) => no_record(false, at),
    }
}

// The first record at a place or behind the fields there that are passed over.
pub fn next_record(job: &[u8], at: usize) -> Found
    ensures { Seeks job.now at result }
{
    let mut f = look(job, at);
    while f.question {
        let next = f.next;
        f = look(job, next);
    }
    f
}

// The records into the record table, and from there into the columns.

// The first n records of the job come to the first n places of the record table.
pub fn fill(job: &[u8], records: &mut [Record], n: usize)
    requires { n ≤ length records.old }
    ensures { Filled job.now n records.old records.new }
{
    let mut at = 0;
    for i in 0..n {
        let found = next_record(job, at);
        store(records, i, found.place);
        at = found.next;
    }
}

// What stands at place i comes to the columns, as record number i + 1.
fn load_one(work: &mut [u16], i: usize, p: Record)
    requires { Large work.old × (i < most_records) }
    ensures { work.new ≡ carry work.old i p }
{
    let r = record_at(i + 1);
    let a = p.a;
    let b = p.b;
    let c = p.c;
    if p.kind == 1 {
        put_equation(work, r, a, b);
    } else {
        put_application(work, r, a, b, c);
    }
}

// The records in the first n places come to the work table's columns, as records 1 to n.
pub fn load(records: &[Record], n: usize, work: &mut [u16])
    requires { Loadable n records.now work.old }
    ensures { Carried n records.now work.old work.new }
{
    for i in 0..n {
        load_one(work, i, fetch(records, i));
    }
}

// The first n records of the job come to the record table, and from there to the columns.
pub fn take_in(job: &[u8], records: &mut [Record], work: &mut [u16], n: usize)
    requires { Handable job.now records.old work.old n }
    ensures { Handed job.now records.old work.old n records.new work.new }
{
    fill(job, records, n);
    load(records, n, work);
}
