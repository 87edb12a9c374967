// The harness profile: a plain harness sheet has no applications, and its reasons have the fewest records. Document 02, No. 8. What answers a job and what judges its report is
// written once for every profile; here is what this one does by itself. Rests on profile, judge, harness_reason and harness_test.
#![tactic(auto)]

ghost use Rattle.harness_test.specs.Rules.{harness_rules, harness_laws};

use judge::Recheck;
use meaning::Tag;
use moment::{Closed, Question};
use profile::Profile;

pub struct Harness;

impl Profile for Harness {
    ghost rules = { harness_rules };

    fn explain(
        work: &mut [u16],
        size: usize,
        len: usize,
        joins: usize,
        before: usize,
        s: Tag,
        t: Tag,
    ) -> Option<usize> {
        harness_reason::explain(work, size, len, joins, before, s, t)
    }

    ghost laws = { harness_laws };
}

impl Recheck for Harness {
    fn explained(
        job: &[u8],
        report: &[u8],
        at: usize,
        work: &mut [u16],
        q: Question,
    ) -> Result<usize, usize> {
        harness_test::explained(job, report, at, work, q)
    }

    fn checked(
        job: &[u8],
        report: &[u8],
        at: usize,
        work: &mut [u16],
        c: Closed,
        before: usize,
        differs: usize,
    ) -> Result<usize, usize> {
        harness_test::checked(job, report, at, work, c, before, differs)
    }
}
