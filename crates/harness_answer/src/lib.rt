// The report of an accepted plain harness sheet. Document 02, No. 8 and 9. Rests on answer_all, which answers by the rules of any profile, and on harness_profile.
#![tactic(auto)]

ghost use Rattle.job_field.specs.Reading.{items_in};
ghost use Rattle.answer_all.specs.Asking.{Ready, Responded};
ghost use Rattle.harness_read.specs.Profile.{Equations};
ghost use Rattle.harness_test.specs.Rules.{harness_rules};

use answer_all::respond_by;
use harness_profile::Harness;

// The whole report of a sheet whose records stand in the columns: they are closed, the questions answered and the totals written. Answers the report's length.
pub fn respond(job: &[u8], room: &mut [u8], work: &mut [u16], size: usize, len: usize) -> usize
    requires { Ready job.now room.old work.old size len × Equations (items_in job.now) }
    ensures { Responded harness_rules job.now room.old work.old room.new work.new result }
{
    respond_by::<Harness>(job, room, work, size, len)
}
