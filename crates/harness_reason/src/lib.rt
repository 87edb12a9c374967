// The reason of a plain harness sheet: for two tags that are equal by the equations before a question, the fewest records that make them so, and of equally few
// ones the smallest by first differing record number. Document 02, No. 8. Rests on moment, which tells whether two tags are equal at the question, on
// harness_find, on reason_order, on table, and on reason, whose question this is too.
#![tactic(auto)]

ghost use Rattle.std.specs.Prelude.{ℕ, ◌≤◌, ◌<◌};
ghost use Rattle.reason.specs.Explaining.{Question};
ghost use Rattle.harness_reason.specs.Explaining.{Plain, Wanted, Shortest, Explained};

use meaning::Tag;

// Writes the harness reason for two tags that are equal by the first `before` records into the list. Says how many numbers it has.
fn shortest(work: &mut [u16], before: usize, s: Tag, t: Tag) -> usize
    requires { Wanted before s.0 t.0 work.old }
    ensures { Shortest before s.0 t.0 work.old work.new result }
{
    let n = harness_find::search(work, before, s, t);
    harness_find::trace(work, t, n);
    reason_order::put_rising(work, before, n)
}

// By which fewest of the first `before` records, which are all equations, s and t are equal: how many numbers of the list are those, or none where that does
// not follow.
pub fn explain(
    work: &mut [u16],
    size: usize,
    len: usize,
    joins: usize,
    before: usize,
    s: Tag,
    t: Tag,
) -> Option<usize>
    requires question { Question size len joins before s.0 t.0 work.old }
    requires plain { Plain len work.old }
    ensures { Explained size len joins before s.0 t.0 work.old work.new result }
{
    if s == t {
        return Some(0);
    }
    let b = moment::met(work, s, t)?;
    if moment::made(work, b) > before {
        return None;
    }
    Some(shortest(work, before, s, t))
}
