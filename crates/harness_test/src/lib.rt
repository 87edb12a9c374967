// Whether the right answer to an explain, and to a 06, stands at a place of a report of a plain harness sheet. Document 02, No. 8, "Its recheck uses this rule". The reason
// is one, so that it is found again and its field compared byte by byte; in edition 2 its sheets are looked for behind it (No. 9). Rests on moment, pairs, answer_ask, judge_sheets,
// judge_explain and judge_broken (what is asked and told of both), profile (the rules stand in specs/Rules), report, report_read, report_numbers and harness_reason.
#![tactic(auto)]

ghost use Rattle.std.specs.Prelude.{◌≡◌, true, ◌↔◌, [], ◌∷◌, ◌+◌, ◌*◌, ◌≤◌, ◌<◌, length};
ghost use Rattle.meaning.specs.Limits.{most_records};
ghost use Rattle.job_field.specs.Reading.{items_in};
ghost use Rattle.table.specs.Map.{list_in};
ghost use Rattle.table.specs.Places.{Large};
ghost use Rattle.report.specs.Report.{numbers, field};
ghost use Rattle.moment.specs.Posed.{head_of};
ghost use Rattle.pairs.specs.Breaking.{Breaking};
ghost use Rattle.answer_ask.specs.Right.{RightAt};
ghost use Rattle.harness_test.specs.Rules.{harness_rules};
ghost use Rattle.judge_broken.specs.Checked.{Checked};
ghost use Rattle.judge_explain.specs.Right.{Explaining, Explained};
ghost use Rattle.harness_read.specs.Profile.{Equations};
ghost use Rattle.harness_reason.specs.Explaining.{Plain};
ghost use Rattle.harness_test.specs.Stands.{IsField, FieldAt, Broke, Breached};

use harness_reason::explain;
use judge_sheets::sheets_behind;
use meaning::Tag;
use moment::{Closed, Question};
use pairs::{first_broken, pair_at};
use report_numbers::is_list;
use report_read::{Front, front_at, is_bare, number_in};

// Whether a whole field of a kind, with so many bytes of body, stands at a place.
fn is_field(report: &[u8], at: usize, kind: u8, bytes: usize) -> bool
    requires { at ≤ length report.now }
    ensures { (result ≡ true) ↔ FieldAt report.now at kind bytes }
{
    match front_at(report, at) {
        None => false,
        Some(Front { kind: k, size: n }) => {
            if k != kind {
                return false;
            }
            n == bytes
        }
    }
}

// Whether a field without a body stands at a place.
fn bare(report: &[u8], at: usize, kind: u8) -> Result<usize, usize>
    requires { at ≤ length report.now }
    ensures { RightAt (IsField (field kind [])) report.now at result }
{
    if is_bare(report, at, kind) {
        Ok(at + 3)
    } else {
        Err(at)
    }
}

// Whether the first numbers of the list stand at a place as the field of a reason.
fn reason_stands(report: &[u8], at: usize, work: &[u16], count: usize) -> Result<usize, usize>
    requires { Large work.now × (count ≤ most_records) × (at ≤ length report.now) }
    ensures { RightAt (IsField (field 132 (numbers (list_in count work.now)))) report.now at result }
{
    let bytes = 2 * count;
    if is_field(report, at, report::BECAUSE, bytes) {
        if is_list(report, at + 3, work, count) {
            Ok(at + 3 + bytes)
        } else {
            Err(at)
        }
    } else {
        Err(at)
    }
}

// Whether the number of a pair and the first numbers of the list stand at a place as the field of a broken pair.
fn breach_stands(
    report: &[u8],
    at: usize,
    work: &[u16],
    number: usize,
    count: usize,
) -> Result<usize, usize>
    requires { Large work.now × (count ≤ most_records) × (at ≤ length report.now) }
    ensures { RightAt (IsField (field 134 (numbers (number ∷ list_in count work.now)))) report.now at result }
{
    let bytes = 2 + 2 * count;
    if is_field(report, at, report::BREACHED, bytes) {
        if usize::from(number_in(report, at + 3)) != number {
            return Err(at);
        }
        if is_list(report, at + 5, work, count) {
            Ok(at + 3 + bytes)
        } else {
            Err(at)
        }
    } else {
        Err(at)
    }
}

// Whether the answer to an explain stands at a place: the reason with its sheets, or that the equality does not follow.
pub fn explained(
    job: &[u8],
    report: &[u8],
    at: usize,
    work: &mut [u16],
    q: Question,
) -> Result<usize, usize>
    requires { Explaining job.now work.old q × Plain q.len work.old × (at ≤ length report.now) }
    ensures { Explained harness_rules job.now report.now work.old work.new at q result }
{
    match explain(work, q.size, q.len, q.joins, q.before, q.s, q.t) {
        Some(count) => {
            let found = reason_stands(report, at, work, count);
            sheets_behind(found, job, report, at + 3, work, q.sheeted)
        }
        None => bare(report, at, report::APART),
    }
}

// Whether the field of a broken pair stands at a place: its number and the reason for its tags, with the sheets of that.
fn breach(
    job: &[u8],
    report: &[u8],
    at: usize,
    work: &mut [u16],
    c: Closed,
    before: usize,
    number: usize,
    s: Tag,
    t: Tag,
) -> Result<usize, usize>
    requires { Broke job.now work.old (head_of c) c.len c.joins before s.0 t.0 × Plain c.len work.old × (at ≤ length report.now) }
    ensures { Breached job.now report.now work.old work.new at c.size c.len before number s.0 t.0 result }
{
    match explain(work, c.size, c.len, c.joins, before, s, t) {
        Some(count) => {
            let found = breach_stands(report, at, work, number, count);
            sheets_behind(found, job, report, at + 5, work, c.sheeted)
        }
        None => Err(at),
    }
}

// Whether the answer to a 06 stands at a place, behind so many records and so many pairs: the earliest broken pair with the reason and its sheets, or that none is broken.
pub fn checked(
    job: &[u8],
    report: &[u8],
    at: usize,
    work: &mut [u16],
    c: Closed,
    before: usize,
    differs: usize,
) -> Result<usize, usize>
    requires { Breaking job.now work.old (head_of c) c.len c.joins before differs × (at ≤ length report.now) × Equations (items_in job.now) }
    ensures { Checked harness_rules job.now report.now work.old work.new before differs at result }
{
    let number = first_broken(work, differs, before);
    if number == 0 {
        return bare(report, at, report::INTACT);
    }
    let pair = pair_at(job, number);
    breach(job, report, at, work, c, before, number, pair.s, pair.t)
}
