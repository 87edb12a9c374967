// The judge of a report against its job, over the table that the closure left, for every profile. Document 01, "What is lent, and each refusal": the
// report fields are compared in order, and the judge stops at the first that is at fault. Document 02, No. 1 and 9. Rests on job_field, report_read, moment, pairs,
// answer_ask, answer_why, profile, judge_explain and judge_broken.
#![tactic(auto)]

ghost use Rattle.std.specs.Prelude.{◌≡◌, ◌≤◌, ◌<◌, length};
ghost use Rattle.job_field.specs.Answer.{question_said};
ghost use Rattle.job_field.specs.Reading.{head_in, items_in};
ghost use Rattle.moment.specs.Posed.{head_of};
ghost use Rattle.profile.specs.Plain.{plain_rules};
ghost use Rattle.judge_explain.specs.Right.{Explaining, Explained};
ghost use Rattle.judge_broken.specs.Checked.{Checked};
ghost use Rattle.pairs.specs.Breaking.{Breaking};
ghost use Rattle.judge.specs.Judging.{Judgeable, Judged};
ghost use Rattle.judge.specs.Ended.{Ended};
ghost use Rattle.judge.specs.Testing.{Testing, Tested};
ghost use Rattle.judge.specs.Going.{Going, Advanced};

use answer_ask::led;
use answer_why::doubted;
use job_field::{Field, Query, behind, pairs_in, read, sheeted, stands_for, units};
use judge_broken::asked;
use moment::{Closed, Question};
use pairs::mark_note;
use profile::{Plain, Profile};

// How a profile looks at the two questions that have a reason: whether the right answer stands at a place, and then the place behind it, or else the place at fault.
pub trait Recheck: Profile {
    fn explained(
        job: &[u8],
        report: &[u8],
        at: usize,
        work: &mut [u16],
        q: Question,
    ) -> Result<usize, usize>
        requires asked { Explaining job.now work.old q × (at ≤ length report.now) }
        requires asks { Self.rules.Asks (items_in job.now) }
        ensures { Explained Self.rules job.now report.now work.old work.new at q result };

    fn checked(
        job: &[u8],
        report: &[u8],
        at: usize,
        work: &mut [u16],
        c: Closed,
        before: usize,
        differs: usize,
    ) -> Result<usize, usize>
        requires asked { Breaking job.now work.old (head_of c) c.len c.joins before differs × (at ≤ length report.now) }
        requires asks { Self.rules.Asks (items_in job.now) }
        ensures { Checked Self.rules job.now report.now work.old work.new before differs at result };
}

impl Recheck for Plain {
    fn explained(
        job: &[u8],
        report: &[u8],
        at: usize,
        work: &mut [u16],
        q: Question,
    ) -> Result<usize, usize> {
        judge_explain::explained(job, report, at, work, q)
    }

    fn checked(
        job: &[u8],
        report: &[u8],
        at: usize,
        work: &mut [u16],
        c: Closed,
        before: usize,
        differs: usize,
    ) -> Result<usize, usize> {
        judge_broken::checked(job, report, at, work, c, before, differs)
    }
}

// How far the judge has come: the place in the job, the place in the report, and the records and the pairs that must differ before both.
#[derive(Clone, Copy)]
pub struct Stand {
    pub at: usize,
    pub place: usize,
    pub before: usize,
    pub differs: usize,
}

// Whether the totals close the report at a place, and nothing stands behind them; otherwise the place at fault.
pub fn ended(report: &[u8], at: usize, classes: usize, idle: usize) -> Result<(), usize>
    requires { (at ≤ length report.now) × (classes < 65536) × (idle < 65536) }
    ensures { Ended report.now at classes idle result }
{
    if report_read::is_totals(report, at, classes, idle) {
        if report.len() == at + 7 {
            Ok(())
        } else {
            Err(at + 7)
        }
    } else {
        Err(at)
    }
}

// Whether the right answer to a question stands at the place of the report: the place behind it, or the place at fault.
fn tested<P: Recheck>(
    job: &[u8],
    report: &[u8],
    work: &mut [u16],
    c: Closed,
    s: Stand,
    q: Query,
) -> Result<usize, usize>
    requires { Testing job.now report.now work.old (head_of c) c.len c.joins s.before s.differs s.place (question_said q) × P.rules.Asks (items_in job.now) }
    ensures { Tested P.rules job.now report.now work.old work.new s.before s.differs s.place (question_said q) result }
{
    match q {
        Query::Ask(a, b) => led(report, s.place, work, asked(c, s.before, a, b)),
        Query::Explain(a, b) => P::explained(job, report, s.place, work, asked(c, s.before, a, b)),
        Query::Broken => P::checked(job, report, s.place, work, c, s.before, s.differs),
        Query::Why(a, b) => doubted(report, s.place, work, asked(c, s.before, a, b)),
    }
}

// One item of the job, with the report beside it: how far the judge has come behind it, or that the report ends and is sound; otherwise the place at fault.
fn advance<P: Recheck>(
    job: &[u8],
    report: &[u8],
    work: &mut [u16],
    c: Closed,
    idle: usize,
    s: Stand,
) -> Result<Option<Stand>, usize>
    requires { Judgeable job.now work.old c.size c.len c.joins idle × Going P.rules job.now report.now work.old s × (head_in job.now ≡ head_of c) × P.rules.Asks (items_in job.now) }
    ensures { Advanced P.rules job.now report.now work.old work.new s result }
{
    let next = behind(job, s.at);
    match read(job, s.at) {
        Err(_) => Err(s.place),
        Ok(Field::Header(_)) => Err(s.place),
        Ok(Field::Noted(l)) => {
            mark_note(l, work, c, s.differs);
            Ok(Some(Stand {
                at: next,
                place: s.place,
                before: s.before + usize::from(stands_for(l)),
                differs: s.differs + usize::from(pairs_in(l)),
            }))
        }
        Ok(Field::Posed(q)) => {
            let place = tested::<P>(job, report, work, c, s, q)?;
            Ok(Some(Stand {
                at: next,
                place,
                before: s.before,
                differs: s.differs,
            }))
        }
        Ok(Field::End) => {
            ended(report, s.place, c.size - c.joins, idle)?;
            Ok(None)
        }
    }
}

// Judges a report against a job of N = `size` tags, whose records the table holds with what their closure left: it is sound, or the first byte of the first field at
// fault.
pub fn judge_by<P: Recheck>(
    job: &[u8],
    report: &[u8],
    work: &mut [u16],
    size: usize,
    len: usize,
    joins: usize,
    idle: usize,
) -> Result<(), usize>
    requires { Judgeable job.now work.old size len joins idle × P.rules.Asks (items_in job.now) }
    ensures { Judged P.rules job.now report.now work.old work.new result }
{
    let unit = usize::from(units(job));
    let edition = sheeted(job);
    let c = Closed {
        size,
        unit,
        sheeted: edition,
        len,
        joins,
    };
    let mut s = Stand {
        at: behind(job, 0),
        place: 0,
        before: 0,
        differs: 0,
    };
    while let Some(t) = advance::<P>(job, report, work, c, idle, s)? {
        s = t;
    }
    Ok(())
}

// The same for the plain profile.
pub fn judge(
    job: &[u8],
    report: &[u8],
    work: &mut [u16],
    size: usize,
    len: usize,
    joins: usize,
    idle: usize,
) -> Result<(), usize>
    requires { Judgeable job.now work.old size len joins idle }
    ensures { Judged plain_rules job.now report.now work.old work.new result }
{
    judge_by::<Plain>(job, report, work, size, len, joins, idle)
}
