// Whether the sheets of a reason stand behind it in a report, in edition 2 alone. Document 02, No. 9. Rests on table, job_field, report, report_read,
// report_numbers, answer_ask and sheets_field.
#![tactic(auto)]

ghost use Rattle.std.specs.Prelude.{ℕ, ◌≡◌, true, Ok};
ghost use Rattle.job_field.specs.Reading.{head_in};
ghost use Rattle.judge_sheets.specs.Behind.{Behind, Sheeted, Turned};

use report_numbers::read_reason;
use sheets_field::is_sheets;

// Whether the sheets of a reason whose numbers stand from a place up to another stand behind it: then the place behind them, and otherwise the place where they should.
fn filed(
    job: &[u8],
    report: &[u8],
    from: usize,
    end: usize,
    work: &mut [u16],
) -> Result<usize, usize>
    requires { Behind job.now report.now work.old from end × ((head_in job.now).sheeted ≡ true) }
    ensures { Sheeted job.now report.now work.old work.new from end result }
{
    let count = (end - from) / 2;
    read_reason(report, from, work, count);
    match is_sheets(job, report, end, work, count) {
        Some(p) => Ok(p),
        None => Err(end),
    }
}

// Where a reason was found, so that its numbers stand from a place on, whether what belongs behind it stands there: its sheets in edition 2, and nothing otherwise.
// Where none was found, that is said again.
pub fn sheets_behind(
    found: Result<usize, usize>,
    job: &[u8],
    report: &[u8],
    from: usize,
    work: &mut [u16],
    sheeted: bool,
) -> Result<usize, usize>
    requires { ((head_in job.now).sheeted ≡ sheeted) × ((end : ℕ) → found ≡ Ok end → Behind job.now report.now work.old from end) }
    ensures { Turned job.now report.now work.old work.new from found result }
{
    let end = found?;
    if sheeted {
        filed(job, report, from, end, work)
    } else {
        Ok(end)
    }
}
