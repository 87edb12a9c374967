// What tagharness says of a plain harness sheet, and that it is true: the lines of its one sound report, or the line of its refusal. Document 01, "The program"; document 02,
// No. 8. Rests on harness_own for the run and on text for the text.
#![tactic(auto)]

ghost use Rattle.harness_saying.specs.Says.{HarnessTrue};

use harness_own::run_sheet;
use text::tell_answer;

// Runs a sheet and puts the lines of its report, or the line of its refusal, into a lent room of bytes.
pub fn answer_sheet(job: &[u8], room: &mut [u8], work: &mut [u16], out: &mut [u8]) -> Option<usize>
    ensures { HarnessTrue job.now room.old work.old out.old out.new result }
{
    match run_sheet(job, room, work) {
        Ok(length) => tell_answer(job, room, 0, 0, length, out),
        Err(refusal) => tell_answer(job, room, u8::from(refusal.reason), refusal.place, 0, out),
    }
}
