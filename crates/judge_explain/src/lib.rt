// Whether the right answer to an explain stands at a place of a report, over the table that the closure left, with the sheets of its reason in edition 2. Document
// 01, "Reasons" and "The job and the report"; document 02, No. 9. Rests on moment, pairs, answer_ask, judge_sheets, report, report_read, report_numbers, reason,
// reason_order and reason_test.
#![tactic(auto)]

ghost use Rattle.profile.specs.Plain.{plain_rules};
ghost use Rattle.std.specs.Prelude.{◌+◌, ◌≤◌, length};
ghost use Rattle.moment.specs.Posed.{Posed, Deciding};
ghost use Rattle.judge_explain.specs.Right.{Assuring, Grounded, Explaining, Explained, Reasoned, Known};

use judge_sheets::sheets_behind;
use moment::Question;
use pairs::came;
use reason_order::rises;
use reason_test::serves;
use report_read::Front;

// Whether so many bytes at a place are the numbers of the reason that is found here. Another reason may stand there where they are not.
fn is_own(report: &[u8], at: usize, bytes: usize, work: &mut [u16], q: Question) -> bool
    requires { Posed work.old q × (at + bytes ≤ length report.now) }
    ensures { Assuring (Reasoned work.old report.now at bytes q) work.old work.new result }
{
    match reason::explain(work, q.size, q.len, q.joins, q.before, q.s, q.t) {
        None => false,
        Some(count) => {
            if 2 * count != bytes {
                return false;
            }
            report_numbers::is_list(report, at, work, count)
        }
    }
}

// Whether so many bytes at a place are numbers that meet each point of a reason, where `first` is the first k.
fn meets(
    report: &[u8],
    at: usize,
    bytes: usize,
    work: &mut [u16],
    q: Question,
    first: usize,
) -> bool
    requires { Known work.old q first × (at + bytes ≤ length report.now) }
    ensures { Deciding (Reasoned work.old report.now at bytes q) work.old work.new result }
{
    if bytes % 2 != 0 {
        return false;
    }
    let count = bytes / 2;
    if count > 2 * (q.size - 1) {
        return false;
    }
    report_numbers::read_reason(report, at, work, count);
    if rises(work, count, first) {
        serves(work, count, q)
    } else {
        false
    }
}

// Whether so many bytes at a place are the numbers of a reason, where `first` is the first k. To find one costs no more than to test one,
// so one that is found again is not tested.
pub fn is_reason(
    report: &[u8],
    at: usize,
    bytes: usize,
    work: &mut [u16],
    q: Question,
    first: usize,
) -> bool
    requires { Known work.old q first × (at + bytes ≤ length report.now) }
    ensures { Deciding (Reasoned work.old report.now at bytes q) work.old work.new result }
{
    if is_own(report, at, bytes, work, q) {
        return true;
    }
    meets(report, at, bytes, work, q, first)
}

// Whether a reason stands at a place, where `first` is the first k.
fn because(
    report: &[u8],
    at: usize,
    work: &mut [u16],
    q: Question,
    first: usize,
) -> Result<usize, usize>
    requires { Known work.old q first × (at ≤ length report.now) }
    ensures { Grounded work.old work.new report.now at q result }
{
    match report_read::front_at(report, at) {
        None => Err(at),
        Some(Front { kind, size: bytes }) => {
            if kind != report::BECAUSE {
                return Err(at);
            }
            if is_reason(report, at + 3, bytes, work, q, first) {
                Ok(at + 3 + bytes)
            } else {
                Err(at)
            }
        }
    }
}

// Whether the answer to an explain stands at a place: a reason with its sheets, or that the equality does not follow.
pub fn explained(
    job: &[u8],
    report: &[u8],
    at: usize,
    work: &mut [u16],
    q: Question,
) -> Result<usize, usize>
    requires { Explaining job.now work.old q × (at ≤ length report.now) }
    ensures { Explained plain_rules job.now report.now work.old work.new at q result }
{
    let first = came(work, q);
    if first <= q.before {
        let found = because(report, at, work, q, first);
        return sheets_behind(found, job, report, at + 3, work, q.sheeted);
    }
    if report_read::is_apart(report, at) {
        Ok(at + 3)
    } else {
        Err(at)
    }
}
