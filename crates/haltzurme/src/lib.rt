// The tool's two calls. Document 01, "What is lent, and each refusal". Neither has a condition on its caller: every job, room, report and table gets the
// answer that specs/ defines. What two outcomes of a call have in common, and that the recheck passes what the run writes, is proved here. Rests on
// call_intake, where the record table has its part, and on call_rest.
#![tactic(auto)]

ghost use Rattle.call_look.specs.Seen.{number_of, place_of, length_of};
ghost use Rattle.haltzurme.specs.Run.{Ran};
ghost use Rattle.haltzurme.specs.Recheck.{Rechecked};

use call_intake::receive;
pub use call_look::{LONGEST, NAMED, PLACES, Reason, Refusal};
use call_rest::{finish, weigh};
use records::Record;

// Answers a job with its report's length: the report comes to the front of the room, and both tables are left zero in their named places.
pub fn run(
    job: &[u8],
    room: &mut [u8],
    records: &mut [Record],
    work: &mut [u16],
) -> Result<usize, Refusal>
    ensures { Ran job.now room.old records.old work.old (number_of result) (place_of result) (length_of result) room.new records.new work.new }
{
    let looked = receive(job, records, work);
    finish(job, room, work, looked)
}

// Rechecks a report: it is sound, or where it is first at fault; and both tables are left zero in their named places.
pub fn recheck(
    job: &[u8],
    report: &[u8],
    records: &mut [Record],
    work: &mut [u16],
) -> Result<(), Refusal>
    ensures { Rechecked job.now report.now records.old work.old (number_of result) (place_of result) records.new work.new }
{
    let looked = receive(job, records, work);
    weigh(job, report, work, looked)
}
