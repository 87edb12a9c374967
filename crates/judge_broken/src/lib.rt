// Whether the right answer to a question 06 stands at a place of a report, over the table that the closure left, with the sheets of its reason in edition 2.
// Document 02, No. 1 and 9. Rests on pairs, moment, answer_ask, judge_sheets, report, report_read and judge_explain.
#![tactic(auto)]

ghost use Rattle.profile.specs.Plain.{plain_rules};
ghost use Rattle.std.specs.Prelude.{◌≡◌, ◌+◌, ◌≤◌, ◌<◌, length};
ghost use Rattle.pairs.specs.Breaking.{Breaking};
ghost use Rattle.moment.specs.Posed.{head_of, Deciding};
ghost use Rattle.judge_explain.specs.Right.{Known};
ghost use Rattle.judge_broken.specs.Checked.{NumberedReason, IntactField, Breached, Checked};
ghost use Rattle.answer_ask.specs.Right.{RightAt};

use judge_explain::is_reason;
use judge_sheets::sheets_behind;
use meaning::Tag;
use moment::{Closed, Question};
use pairs::{first_broken, pair_at};
use report_read::{Front, front_at, is_bare, number_in};
use table::since;

// Whether so many bytes at a place are the number of a pair and the numbers of a reason, where `first` is the first k.
fn is_breach(
    report: &[u8],
    at: usize,
    bytes: usize,
    work: &mut [u16],
    q: Question,
    first: usize,
    number: usize,
) -> bool
    requires { Known work.old q first × (at + bytes ≤ length report.now) }
    ensures { Deciding (NumberedReason work.old report.now at bytes q number) work.old work.new result }
{
    if bytes < 2 {
        return false;
    }
    if usize::from(number_in(report, at)) != number {
        return false;
    }
    is_reason(report, at + 2, bytes - 2, work, q, first)
}

// Whether the field of a broken pair stands at a place, where `first` is the first k.
fn breach(
    report: &[u8],
    at: usize,
    work: &mut [u16],
    q: Question,
    first: usize,
    number: usize,
) -> Result<usize, usize>
    requires { Known work.old q first × (at ≤ length report.now) }
    ensures { Breached work.old work.new report.now at q number result }
{
    match front_at(report, at) {
        None => Err(at),
        Some(Front { kind, size: bytes }) => {
            if kind != report::BREACHED {
                return Err(at);
            }
            if is_breach(report, at + 3, bytes, work, q, first, number) {
                Ok(at + 3 + bytes)
            } else {
                Err(at)
            }
        }
    }
}

// Whether a place says that no pair is broken.
fn intact(report: &[u8], at: usize) -> Result<usize, usize>
    requires { at ≤ length report.now }
    ensures { RightAt IntactField report.now at result }
{
    if is_bare(report, at, report::INTACT) {
        Ok(at + 3)
    } else {
        Err(at)
    }
}

// The question why two tags are equal, among what the closure left.
pub fn asked(c: Closed, before: usize, s: Tag, t: Tag) -> Question
    ensures { result ≡ record { size = c.size; unit = c.unit; sheeted = c.sheeted; len = c.len; joins = c.joins; before = before; s = s; t = t } }
{
    Question {
        size: c.size,
        unit: c.unit,
        sheeted: c.sheeted,
        len: c.len,
        joins: c.joins,
        before,
        s,
        t,
    }
}

// Whether the answer to a 06 stands at a place, behind so many records and so many pairs: the earliest broken pair with a reason and its sheets, or that none is
// broken.
pub fn checked(
    job: &[u8],
    report: &[u8],
    at: usize,
    work: &mut [u16],
    c: Closed,
    before: usize,
    differs: usize,
) -> Result<usize, usize>
    requires { Breaking job.now work.old (head_of c) c.len c.joins before differs × (at ≤ length report.now) }
    ensures { Checked plain_rules job.now report.now work.old work.new before differs at result }
{
    let number = first_broken(work, differs, before);
    if number == 0 {
        return intact(report, at);
    }
    let pair = pair_at(job, number);
    let first = since(work, number - 1);
    let found = breach(
        report,
        at,
        work,
        asked(c, before, pair.s, pair.t),
        first,
        number,
    );
    sheets_behind(found, job, report, at + 5, work, c.sheeted)
}
