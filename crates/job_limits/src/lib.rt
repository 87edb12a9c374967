// The limits of a field: at most 4,000 records, 500 pairs that must differ and 1,000 questions (7), N from 1 to 1,000 with U up to it (6), tags below N (11, 12, 13) and sheets up to 9,999 (17).
// Document 01, "What is lent, and each refusal", the second half of its order for a field, and document 02, No. 1 to 3 and 9. Here the tags of a job are compared with N.
// Rests on meaning and job_field.
#![tactic(auto)]

ghost use Rattle.std.specs.Prelude.{◌≡◌, ◌+◌, length, ◌&&◌, ltb, leb};
ghost use Rattle.job_field.specs.Reading.{Field as FieldSaid, or_else, counted, sized, note_is_filed, filed, field_tags, tagged, checked};
ghost use Rattle.meaning.specs.Limits.{most_tags};
ghost use Rattle.job_field.specs.Answer.{number_of, note_said, question_said, head_said, field_said, said};
ghost use Rattle.job_field.specs.Items.{stands_for, pairs_noted, noted, posed, after};
ghost use Rattle.job_field.specs.Standing.{Few};
ghost use Rattle.job_limits.specs.Counts.{moment_of};
ghost use Rattle.job_limits.specs.Tests.{passed};

use job_field::{Fault, Field, Head, Line, Query, pairs_in, stands_for};
use meaning::Tag;

// At most so many records, pairs that must differ, questions and tags.
const MOST_RECORDS: usize = meaning::MOST_RECORDS;

const MOST_DIFFERS: usize = meaning::MOST_DIFFERS;

const MOST_QUESTIONS: u16 = meaning::MOST_QUESTIONS as u16;

const MOST_TAGS: u16 = meaning::MOST_TAGS as u16;

const MOST_SHEET: u16 = meaning::MOST_SHEET as u16;

// What stands before a field: so many records, pairs that must differ, and questions.
#[derive(Clone, Copy, Debug, Default, PartialEq, Eq)]
pub struct Counts {
    pub records: u16,
    pub differs: u16,
    pub questions: u16,
}

// What stands before the field behind a note, and behind a question.
pub fn past_note(c: Counts, l: Line) -> Counts
    requires { Few (moment_of c) }
    ensures { moment_of result ≡ after (noted (note_said l)) (moment_of c) }
{
    Counts {
        records: c.records + stands_for(l),
        differs: c.differs + pairs_in(l),
        questions: c.questions,
    }
}

pub fn past_question(c: Counts, q: Query) -> Counts
    requires { Few (moment_of c) }
    ensures { moment_of result ≡ after (posed (question_said q)) (moment_of c) }
{
    Counts {
        questions: c.questions + 1,
        ..c
    }
}

// Whether a note leaves the records and the pairs within their limits.
fn note_fits(c: Counts, l: Line) -> bool
    ensures { result ≡ (leb (c.records + length (stands_for (note_said l))) 4000 && leb (c.differs + length (pairs_noted (note_said l))) 500) }
{
    usize::from(c.records) + usize::from(stands_for(l)) <= MOST_RECORDS
        && usize::from(c.differs) + usize::from(pairs_in(l)) <= MOST_DIFFERS
}

// The count limit: 4,000 records, 500 pairs that must differ, 1,000 questions.
fn is_counted(c: Counts, field: Field) -> bool
    ensures { result ≡ counted (moment_of c) (field_said field) }
{
    match field {
        Field::Noted(l) => note_fits(c, l),
        Field::Posed(_) => c.questions < MOST_QUESTIONS,
        Field::Header(_) | Field::End => true,
    }
}

// N is from 1 to 1,000, and U not above it.
fn is_size(n: u16, u: u16) -> bool
    ensures { result ≡ (ltb 0 n && (leb n most_tags && leb u n)) }
{
    0 < n && n <= MOST_TAGS && u <= n
}

fn is_sized(field: Field) -> bool
    ensures { result ≡ sized (field_said field) }
{
    match field {
        Field::Header(head) => is_size(head.size, head.units),
        _ => true,
    }
}

// A sheet is not above 9,999.
fn note_filed(l: Line) -> bool
    ensures { result ≡ note_is_filed (note_said l) }
{
    match l {
        Line::Equation(_, _, h) | Line::Application(_, _, _, h) => h <= MOST_SHEET,
        Line::Differ(_, _) => true,
    }
}

fn is_filed(field: Field) -> bool
    ensures { result ≡ filed (field_said field) }
{
    match field {
        Field::Noted(l) => note_filed(l),
        _ => true,
    }
}

// A fault where a test does not hold.
fn must(holds: bool, fault: Fault) -> Result<(), Fault>
    ensures { (f : FieldSaid) → passed result f ≡ or_else holds (number_of fault) f }
{
    if holds { Ok(()) } else { Err(fault) }
}

// The first two tags of a field must be among those of a job with so many: the first that is not is told.
fn two_tested(size: u16, a: Tag, b: Tag) -> Result<(), Fault>
    ensures { (f : FieldSaid) → passed result f ≡ or_else (ltb a.0 size) 11 (or_else (ltb b.0 size) 12 f) }
{
    must(a.is_of(size), Fault::FirstTag)?;
    must(b.is_of(size), Fault::SecondTag)
}

// The tags of a field so tested, in the order of the job's table.
fn tags_tested(size: u16, field: Field) -> Result<(), Fault>
    ensures { (f : FieldSaid) → passed result f ≡ tagged size 11 (field_tags (field_said field)) f }
{
    match field {
        Field::Noted(Line::Equation(a, b, _) | Line::Differ(a, b)) => two_tested(size, a, b),
        Field::Noted(Line::Application(a, b, c, _)) => {
            two_tested(size, a, b)?;
            must(c.is_of(size), Fault::ThirdTag)
        }
        Field::Posed(Query::Ask(s, t) | Query::Explain(s, t) | Query::Why(s, t)) => two_tested(
            size, s, t,
        ),
        Field::Posed(Query::Broken) | Field::Header(_) | Field::End => Ok(()),
    }
}

// A field with its count limit, N and U, its tags and its sheet tested, in this order; one that was refused before stays so.
#[tactic(auto, unfolding(job_field::specs::Reading::checked))]
pub fn allowed(top: Head, c: Counts, field: Result<Field, Fault>) -> Result<Field, Fault>
    ensures { said result ≡ checked (head_said top) (moment_of c) (said field) }
{
    let field = field?;
    must(is_counted(c, field), Fault::TooMany)?;
    must(is_sized(field), Fault::OutOfRange)?;
    tags_tested(top.size, field)?;
    must(is_filed(field), Fault::Sheet)?;
    Ok(field)
}
