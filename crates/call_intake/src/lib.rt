// What both calls do first with what they are lent: lengths and job are looked at, the job's records go through the record table into the columns of
// the work table, and the record table is cleared. From there on no record table is needed. Document 01, "What is lent, and each refusal". Rests on
// call_look, records_fill and records.
#![tactic(auto)]

ghost use Rattle.call_intake.specs.Received.{Received};
ghost use Rattle.call_look.specs.Seen.{seen};

use call_look::{Refusal, Sight, look};
use records::{Record, clear};
use records_fill::take_in;

// A refusal for lengths alone leaves both tables as they were.
pub fn receive(job: &[u8], records: &mut [Record], work: &mut [u16]) -> Result<Sight, Refusal>
    ensures { Received job.now records.old work.old (seen result) records.new work.new }
{
    let looked = look(job, records.len(), work.len());
    match looked {
        Ok(sight) => {
            take_in(job, records, work, sight.records);
            clear(records);
        }
        Err(refusal) => {
            if refusal.is_lent() {
                clear(records);
            }
        }
    }
    looked
}
