// The judge of a report of a plain harness sheet against its job. Document 02, No. 8, "Its recheck uses this rule", and No. 9. Rests on judge, which judges by the rules of any
// profile, and on harness_profile.
#![tactic(auto)]

ghost use Rattle.job_field.specs.Reading.{items_in};
ghost use Rattle.judge.specs.Judging.{Judgeable, Judged};
ghost use Rattle.harness_read.specs.Profile.{Equations};
ghost use Rattle.harness_test.specs.Rules.{harness_rules};

use harness_profile::Harness;
use judge::judge_by;

// Judges a report against a job of N = `size` tags, whose records the table holds with what their closure left.
pub fn judge(
    job: &[u8],
    report: &[u8],
    work: &mut [u16],
    size: usize,
    len: usize,
    joins: usize,
    idle: usize,
) -> Result<(), usize>
    requires { Judgeable job.now work.old size len joins idle × Equations (items_in job.now) }
    ensures { Judged harness_rules job.now report.now work.old work.new result }
{
    judge_by::<Harness>(job, report, work, size, len, joins, idle)
}
