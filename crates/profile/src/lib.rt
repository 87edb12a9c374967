// What a profile of the job settles: what it asks of a job, which list of records is a reason, and how one is found. What answers a job and what judges its report is
// written once, for every profile. The plain profile is here: document 01, "Reasons" and "The job and the report". Rests on meaning, table, job_field, report and reason.
#![tactic(auto)]

ghost use Rattle.reason.specs.Explaining.{Question};
ghost use Rattle.profile.specs.Rules.{Rules, Laws, Found};
ghost use Rattle.profile.specs.Plain.{plain_rules, plain_laws};

use meaning::Tag;

pub trait Profile {
    ghost rules: { Rules };

    // Why s and t are equal by the first `before` of the records: how many numbers of the list are a reason, or none where that does not follow.
    fn explain(
        work: &mut [u16],
        size: usize,
        len: usize,
        joins: usize,
        before: usize,
        s: Tag,
        t: Tag,
    ) -> Option<usize>
        requires question { Question size len joins before s.0 t.0 work.old }
        requires held { rules.Held len work.old }
        ensures { Found rules size len joins before s.0 t.0 work.old work.new result };

    ghost laws: { Laws rules };
}

// Document 01's own profile.
pub struct Plain;

impl Profile for Plain {
    ghost rules = { plain_rules };

    fn explain(
        work: &mut [u16],
        size: usize,
        len: usize,
        joins: usize,
        before: usize,
        s: Tag,
        t: Tag,
    ) -> Option<usize> {
        reason::explain(work, size, len, joins, before, s, t)
    }

    ghost laws = { plain_laws };
}
