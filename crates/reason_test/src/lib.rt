// Whether the numbers that stand in the table's list, each once, suffice for a reason: they make s and t equal, and none of them can be
// spared. Document 01, "Reasons". Rests on table, moment, list_halve, reason_trim and reason_order.
#![tactic(auto)]

ghost use Rattle.std.specs.Prelude.{◌≤◌};
ghost use Rattle.moment.specs.Posed.{Deciding};
ghost use Rattle.reason_test.specs.Lists.{Named, Entailed, NoneSpare, Sufficient};

use list_add::Task;
use list_halve::Trial;
use moment::Question;

// Whether no number of a list that makes s and t equal can be spared: trimming then leaves as many as there were.
fn tight(work: &mut [u16], count: usize, q: Question) -> bool
    requires { Named work.old q count × Entailed work.old q count }
    ensures { Deciding (NoneSpare work.old q count) work.old work.new result }
{
    reason_trim::copy(work, 0, reason_list::WAITING, count);
    let task = Task {
        size: q.size,
        len: q.len,
        n: count,
    };
    let kept = reason_trim::trim(
        work,
        Trial {
            task,
            s: q.s,
            t: q.t,
        },
    );
    reason_order::put_rising(work, q.len, kept) == count
}

// Whether the list makes s and t equal, and none of its numbers can be spared.
pub fn serves(work: &mut [u16], count: usize, q: Question) -> bool
    requires { Named work.old q count }
    ensures { Deciding (Sufficient work.old q count) work.old work.new result }
{
    let task = Task {
        size: q.size,
        len: q.len,
        n: count,
    };
    if list_halve::entails(
        work,
        Trial {
            task,
            s: q.s,
            t: q.t,
        },
    ) {
        tight(work, count, q)
    } else {
        false
    }
}
