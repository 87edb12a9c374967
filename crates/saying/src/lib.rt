// What tagcheck says of a job, and that it is true: the run's answer, told in lines. Document 01, "The program". specs/Meant has what each line means.
// Rests on haltzurme_own for the run and on text for the text.
#![tactic(auto)]

ghost use Rattle.saying.specs.Says.{True};

use haltzurme_own::run_job;
use text::tell_answer;

// Runs a job and puts the lines of its report, or the line of its refusal, into a lent room of bytes.
pub fn answer_job(job: &[u8], room: &mut [u8], work: &mut [u16], out: &mut [u8]) -> Option<usize>
    ensures { True job.now room.old work.old out.old out.new result }
{
    match run_job(job, room, work) {
        Ok(length) => tell_answer(job, room, 0, 0, length, out),
        Err(refusal) => tell_answer(job, room, u8::from(refusal.reason), refusal.place, 0, out),
    }
}
