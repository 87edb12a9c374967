// What one field of a job adds to the text that tagcheck writes: the line of a question by its field of the report, and of the totals. Document 01,
// "The program"; document 02, No. 1 and 9. Rests on meaning, job_field and text_line.
#![tactic(auto)]

ghost use Rattle.std.specs.Prelude.{◌≡◌, [], ◌∷◌, ◌+◌, ◌≤◌, min, length, cond, ◌&&◌, ◌||◌, eqb};
ghost use Rattle.std.proofs.Math.Seq.{slice};
ghost use Rattle.job_field.specs.Reading.{byte_at, number_at};
ghost use Rattle.job_field.specs.Answer.{question_said, said};
ghost use Rattle.text_line.specs.Line.{parted, line};
ghost use Rattle.text_line.specs.Put.{Put};
ghost use Rattle.text_field.specs.Fields.{numbers_in, part_of, body_of, explain_line, broken_line, why_line, question_line, totals_line, field_width, behind_field, sheets_due, sheets_line, line_of, text_at, width_at};
ghost use Rattle.job_field.specs.Items.{posed};

use job_field::{Fault, Field, Query};
use meaning::Tag;
use text_line::{open_line, put, put_ask, put_pair, put_parted};

// Where the body of the report's first field begins, and the numbers behind one number in it.
const BODY: usize = 3;

const LISTED: usize = 5;

// A byte of the report; one that is not there counts as 0.
fn byte(report: &[u8], at: usize) -> u8
    ensures { result ≡ byte_at report.now at }
{
    if at < report.len() { report[at] } else { 0 }
}

// A number of the report: two bytes, high byte first.
fn number(report: &[u8], at: usize) -> u16
    requires { at ≤ length report.now + 5 }
    ensures { result ≡ number_at report.now at }
{
    let high = u16::from(byte(report, at));
    let low = u16::from(byte(report, at + 1));
    high * 256 + low
}

// The bytes of the report's first field that are there.
fn width(report: &[u8]) -> usize
    ensures { result ≡ min (3 + number_at report.now 1) (length report.now) }
{
    report.len().min(3 + usize::from(number(report, 1)))
}

// The numbers of a part of the report, each with the space before it.
fn put_numbers(report: &[u8], from: usize, stop: usize, out: &mut [u8], at: usize) -> usize
    requires stop_in_bounds { stop ≤ length report.now }
    requires from_le_stop { from ≤ stop }
    requires at_in_bounds { at ≤ length out.old + 1 }
    ensures { Put (parted (numbers_in (slice from stop report.now))) out.old at out.new result }
{
    let mut p = from;
    let mut next = at;
    while stop - p >= 2 {
        next = put_parted(out, next, usize::from(number(report, p)));
        p += 2;
    }
    next
}

// The line of a reason: the numbers of the body of the report's first field, as far as they are there.
fn put_reason(report: &[u8], s: usize, t: usize, out: &mut [u8], at: usize) -> usize
    ensures { let ns = numbers_in (body_of report.now) in Put (line 69 (s ∷ t ∷ length ns ∷ ns)) out.old at out.new result }
{
    let stop = width(report);
    let from = BODY.min(stop);
    let next = open_line(out, at, b'E', s, t);
    let third = put_parted(out, next, (stop - from) / 2);
    let last = put_numbers(report, from, stop, out, third);
    put(out, last, b'\n')
}

// The line of an explain: a reason where the report's first field is of kind 84 hex.
fn put_explain(report: &[u8], s: usize, t: usize, out: &mut [u8], at: usize) -> usize
    ensures { let ns = numbers_in (body_of report.now) in Put (explain_line s t (byte_at report.now 0) ns) out.old at out.new result }
{
    if byte(report, 0) == 0x84 {
        put_reason(report, s, t, out, at)
    } else {
        put_pair(out, at, b'N', s, t)
    }
}

// The line of a broken pair: its number, and the numbers of the body behind that, as far as they are there.
fn put_breach(report: &[u8], out: &mut [u8], at: usize) -> usize
    ensures { let ns = numbers_in (part_of 5 report.now) in Put (line 67 (number_at report.now 3 ∷ length ns ∷ ns)) out.old at out.new result }
{
    let stop = width(report);
    let from = LISTED.min(stop);
    let number = usize::from(number(report, 3));
    let next = open_line(out, at, b'C', number, (stop - from) / 2);
    let last = put_numbers(report, from, stop, out, next);
    put(out, last, b'\n')
}

// The line that says that no pair is broken.
fn put_intact(out: &mut [u8], at: usize) -> usize
    ensures { Put (line 75 []) out.old at out.new result }
{
    let next = put(out, at, b'K');
    put(out, next, b'\n')
}

// The line of a 06: a broken pair where the report's first field is of kind 86 hex.
fn put_broken(report: &[u8], out: &mut [u8], at: usize) -> usize
    ensures { let ns = numbers_in (part_of 5 report.now) in Put (broken_line (byte_at report.now 0) (number_at report.now 3) ns) out.old at out.new result }
{
    if byte(report, 0) == 0x86 {
        put_breach(report, out, at)
    } else {
        put_intact(out, at)
    }
}

// The line of the leaders: the numbers of the body of the report's first field, as far as they are there.
fn put_leaders(report: &[u8], s: usize, t: usize, out: &mut [u8], at: usize) -> usize
    ensures { let ns = numbers_in (body_of report.now) in Put (line 87 (s ∷ t ∷ ns)) out.old at out.new result }
{
    let stop = width(report);
    let from = BODY.min(stop);
    let next = open_line(out, at, b'W', s, t);
    let last = put_numbers(report, from, stop, out, next);
    put(out, last, b'\n')
}

// The line of a why: the leaders where the report's first field is of kind 88 hex.
fn put_why(report: &[u8], s: usize, t: usize, out: &mut [u8], at: usize) -> usize
    ensures { let ns = numbers_in (body_of report.now) in Put (why_line s t (byte_at report.now 0) ns) out.old at out.new result }
{
    if byte(report, 0) == 0x88 {
        put_leaders(report, s, t, out, at)
    } else {
        put_pair(out, at, b'Y', s, t)
    }
}

// The line of the totals.
fn put_totals(report: &[u8], out: &mut [u8], at: usize) -> usize
    ensures { Put (totals_line report.now) out.old at out.new result }
{
    put_pair(
        out,
        at,
        b'T',
        usize::from(number(report, 3)),
        usize::from(number(report, 5)),
    )
}

// The number of a tag, to be written.
fn shown(tag: Tag) -> usize
    ensures { result ≡ tag.0 }
{
    tag.place()
}

// The line of a question, with the report from its own answer on.
fn put_question(q: Query, report: &[u8], out: &mut [u8], at: usize) -> usize
    requires { at ≤ length out.old + 1 }
    ensures { Put (question_line (question_said q) report.now) out.old at out.new result }
{
    match q {
        Query::Ask(s, t) => put_ask(
            out,
            at,
            shown(s),
            shown(t),
            usize::from(number(report, 3)),
            usize::from(number(report, 5)),
        ),
        Query::Explain(s, t) => put_explain(report, shown(s), shown(t), out, at),
        Query::Broken => put_broken(report, out, at),
        Query::Why(s, t) => put_why(report, shown(s), shown(t), out, at),
    }
}

// Whether a field of sheets stands behind a field of a kind: in edition 2, behind a reason.
fn is_due(sheeted: bool, kind: u8) -> bool
    ensures { result ≡ (sheeted && (eqb kind 132 || eqb kind 134)) }
{
    sheeted && (kind == 0x84 || kind == 0x86)
}

// The line of sheets: the numbers of the body of the report's first field, as far as they are there.
fn put_sheets(report: &[u8], out: &mut [u8], at: usize) -> usize
    ensures { Put (sheets_line report.now) out.old at out.new result }
{
    let stop = width(report);
    let from = BODY.min(stop);
    let next = put(out, at, b'H');
    let second = put_parted(out, next, (stop - from) / 2);
    let last = put_numbers(report, from, stop, out, second);
    put(out, last, b'\n')
}

// The line of the sheets behind the report's first field, where a field of them is due.
fn put_filed(sheeted: bool, report: &[u8], out: &mut [u8], at: usize) -> usize
    requires { at ≤ length out.old + 1 }
    ensures { Put (cond (sheets_due sheeted report.now) (sheets_line (behind_field report.now)) []) out.old at out.new result }
{
    let first = width(report);
    let rest = &report[first..];
    if is_due(sheeted, byte(report, 0)) {
        put_sheets(rest, out, at)
    } else {
        at
    }
}

// The lines of a question: its own, and that of its sheets.
fn put_answer(sheeted: bool, q: Query, report: &[u8], out: &mut [u8], at: usize) -> usize
    requires { at ≤ length out.old + 1 }
    ensures { Put (line_of sheeted (posed (question_said q)) report.now) out.old at out.new result }
{
    let next = put_question(q, report, out, at);
    put_filed(sheeted, report, out, next)
}

// The bytes of a question's fields that are there: its own, and that of its sheets where one is due.
fn fields_width(sheeted: bool, report: &[u8]) -> usize
    ensures { let all = report.now in result ≡ min (field_width all + cond (sheets_due sheeted all) (field_width (behind_field all)) 0) (length all) }
{
    let first = width(report);
    let rest = &report[first..];
    if is_due(sheeted, byte(report, 0)) {
        first + width(rest)
    } else {
        first
    }
}

// What a field of the job adds to the text, in the job's edition and with the report from the field's own answer on.
pub fn put_field(
    sheeted: bool,
    field: Result<Field, Fault>,
    report: &[u8],
    out: &mut [u8],
    at: usize,
) -> usize
    requires { at ≤ length out.old + 1 }
    ensures { Put (text_at sheeted (said field) report.now) out.old at out.new result }
{
    match field {
        Ok(Field::Posed(q)) => put_answer(sheeted, q, report, out, at),
        Ok(Field::End) => put_totals(report, out, at),
        Ok(Field::Header(_) | Field::Noted(_)) | Err(_) => at,
    }
}

// How far a field of the job goes in the report: over the fields of a question, as far as they are there.
pub fn passed(sheeted: bool, field: Result<Field, Fault>, report: &[u8]) -> usize
    ensures { result ≡ min (width_at sheeted (said field) report.now) (length report.now) }
{
    match field {
        Ok(Field::Posed(_)) => fields_width(sheeted, report),
        Ok(Field::Header(_) | Field::Noted(_) | Field::End) | Err(_) => 0,
    }
}
