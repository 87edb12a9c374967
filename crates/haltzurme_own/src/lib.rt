// The tool's two calls for a caller that holds no record table: each lends one of its own, 4,000 places that are blank. Document 01, "What is lent, and
// each refusal". No call here has a condition on its caller. The `_over` calls lend places that all hold a record of the caller's choice, for tests
// with a dirty table. Rests on call_intake and call_rest.
#![tactic(auto)]

ghost use Rattle.haltzurme_own.specs.Own.{ReceivedOver};
ghost use Rattle.call_look.specs.Seen.{seen, number_of, place_of, length_of};
ghost use Rattle.haltzurme_own.specs.Plain.{RanOver, RecheckedOver, RanAlone, RecheckedAlone};

use call_intake::receive;
use call_look::Sight;
pub use call_look::{Reason, Refusal};
use call_rest::{finish, weigh};
use meaning::NO_TAG;
use records::Record;

// The 4,000 places of the table all hold the same record.
pub fn receive_over(job: &[u8], work: &mut [u16], each: Record) -> Result<Sight, Refusal>
    ensures { ReceivedOver each job.now work.old (seen result) work.new }
{
    let mut records = [each; meaning::NAMED_PLACES];
    receive(job, &mut records, work)
}

// Answers a job with its report's length: the report comes to the front of the room. Each place of the record table holds the same record.
pub fn run_over(
    job: &[u8],
    room: &mut [u8],
    work: &mut [u16],
    each: Record,
) -> Result<usize, Refusal>
    ensures { RanOver each job.now room.old work.old (number_of result) (place_of result) (length_of result) room.new work.new }
{
    let looked = receive_over(job, work, each);
    finish(job, room, work, looked)
}

// A place of a blank table.
pub const BLANK: Record = Record {
    kind: 0,
    a: NO_TAG,
    b: NO_TAG,
    c: NO_TAG,
    sheet: 0,
};

// Answers a job with blank records in the table.
pub fn run_job(job: &[u8], room: &mut [u8], work: &mut [u16]) -> Result<usize, Refusal>
    ensures { RanAlone job.now room.old work.old (number_of result) (place_of result) (length_of result) room.new work.new }
{
    run_over(job, room, work, BLANK)
}

// Rechecks a report. Each place of the record table holds the same record.
pub fn recheck_over(
    job: &[u8],
    report: &[u8],
    work: &mut [u16],
    each: Record,
) -> Result<(), Refusal>
    ensures { RecheckedOver each job.now report.now work.old (number_of result) (place_of result) work.new }
{
    let looked = receive_over(job, work, each);
    weigh(job, report, work, looked)
}

// Rechecks a report with blank records in the table.
pub fn recheck_report(job: &[u8], report: &[u8], work: &mut [u16]) -> Result<(), Refusal>
    ensures { RecheckedAlone job.now report.now work.old (number_of result) (place_of result) work.new }
{
    recheck_over(job, report, work, BLANK)
}
