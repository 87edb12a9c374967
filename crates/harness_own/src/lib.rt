// The two calls of the harness profile for a caller that holds no record table: each lends one of its own, 4,000 places that are blank. Document 02, No. 8. No call here has a
// condition on its caller. Rests on haltzurme_own, where the record table is made, and on harness_rest.
#![tactic(auto)]

ghost use Rattle.call_look.specs.Seen.{number_of, place_of, length_of};
ghost use Rattle.harness_own.specs.Own.{HarnessRanAlone, HarnessRecheckedAlone};

pub use call_look::{Reason, Refusal};
use haltzurme_own::{BLANK, receive_over};
use harness_rest::{finish, weigh};

// Answers a plain harness sheet with its report's length: the report comes to the front of the room.
pub fn run_sheet(job: &[u8], room: &mut [u8], work: &mut [u16]) -> Result<usize, Refusal>
    ensures { HarnessRanAlone job.now room.old work.old (number_of result) (place_of result) (length_of result) room.new work.new }
{
    let looked = receive_over(job, work, BLANK);
    finish(job, room, work, looked)
}

// Rechecks a report of a plain harness sheet.
pub fn recheck_sheet(job: &[u8], report: &[u8], work: &mut [u16]) -> Result<(), Refusal>
    ensures { HarnessRecheckedAlone job.now report.now work.old (number_of result) (place_of result) work.new }
{
    let looked = receive_over(job, work, BLANK);
    weigh(job, report, work, looked)
}
