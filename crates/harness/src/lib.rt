// The two calls of the harness profile, for jobs with kind 01 records only. Document 02, No. 8. Neither has a condition on its caller: every job, room, report and table gets
// the answer that specs/ defines. Two outcomes of a call are one, the report among them, and the recheck passes what the run writes: proved here. Rests on call_intake,
// where the record table has its part, and on harness_rest.
#![tactic(auto)]

ghost use Rattle.call_look.specs.Seen.{number_of, place_of, length_of};
ghost use Rattle.harness.specs.Run.{HarnessRan};
ghost use Rattle.harness.specs.Recheck.{HarnessRechecked};

use call_intake::receive;
pub use call_look::{Reason, Refusal};
use harness_rest::{finish, weigh};
use records::Record;

// Answers a plain harness sheet with its report's length: the report comes to the front of the room, and both tables are left zero in their named places.
pub fn run(
    job: &[u8],
    room: &mut [u8],
    records: &mut [Record],
    work: &mut [u16],
) -> Result<usize, Refusal>
    ensures { HarnessRan job.now room.old records.old work.old (number_of result) (place_of result) (length_of result) room.new records.new work.new }
{
    let looked = receive(job, records, work);
    finish(job, room, work, looked)
}

// Rechecks a report of a plain harness sheet: it is sound, or where it is first at fault; and both tables are left zero in their named places.
pub fn recheck(
    job: &[u8],
    report: &[u8],
    records: &mut [Record],
    work: &mut [u16],
) -> Result<(), Refusal>
    ensures { HarnessRechecked job.now report.now records.old work.old (number_of result) (place_of result) records.new work.new }
{
    let looked = receive(job, records, work);
    weigh(job, report, work, looked)
}
