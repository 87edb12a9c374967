// Reasons: for two tags that are equal by the records before a question, a list of record numbers that is a reason. Document 01,
// "Reasons". Rests on moment, which finds the newest join between the tags, on reason_follow, which marks that join and all it rests on, on
// reason_list, which lists their records, on reason_trim, which takes out the spare ones of what is told it in the types of list_add and list_halve, on
// reason_order, which puts the others in order, and on table.
#![tactic(auto)]

ghost use Rattle.std.specs.Prelude.{ℕ, ◌≤◌, ◌<◌};
ghost use Rattle.reason.specs.Explaining.{Question, Explained, Joining, Reasoned};

use list_add::Task;
use list_halve::Trial;
use meaning::Tag;

// Writes a reason for two tags into the list, b being the newest join between them. Says how many numbers it has.
fn reason(
    work: &mut [u16],
    size: usize,
    len: usize,
    joins: usize,
    b: usize,
    s: Tag,
    t: Tag,
) -> usize
    requires { Joining size len joins s.0 t.0 b work.old }
    ensures { Reasoned size len s.0 t.0 b work.old work.new result }
{
    reason_follow::unmark_all(work, joins);
    reason_follow::trace(work, s, t, b + 1);
    let n = reason_list::list_marked(work, b + 1);
    let task = Task { size, len, n };
    let kept = reason_trim::trim(work, Trial { task, s, t });
    let last = moment::made(work, b);
    reason_order::put_rising(work, last, kept)
}

// Why s and t are equal by the first `before` of the records: how many numbers of the list are a reason, or none where that does not follow.
pub fn explain(
    work: &mut [u16],
    size: usize,
    len: usize,
    joins: usize,
    before: usize,
    s: Tag,
    t: Tag,
) -> Option<usize>
    requires { Question size len joins before s.0 t.0 work.old }
    ensures { Explained size len joins before s.0 t.0 work.old work.new result }
{
    if s == t {
        return Some(0);
    }
    let b = moment::met(work, s, t)?;
    if moment::made(work, b) > before {
        return None;
    }
    Some(reason(work, size, len, joins, b, s, t))
}
