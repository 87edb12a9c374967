// Taking out the spare records: those that wait come to the front of the list, the spare ones are left out by halves, and the others close up. Document 01,
// "Reasons". Rests on reason_list, on list_halve and on table.
#![tactic(auto)]

ghost use Rattle.std.specs.Prelude.{◌+◌, ◌≤◌, ◌<◌};
ghost use Rattle.meaning.specs.Limits.{most_records};
ghost use Rattle.table.specs.Places.{Large, front_size};
ghost use Rattle.reason_trim.specs.Trimming.{Copied, Moved, Together, Pruned, Followed};

use list_halve::Trial;
use meaning::NO_RECORD;

// The `count` numbers of the list from `from` on are written from `to` on.
pub fn copy(work: &mut [u16], from: usize, to: usize, count: usize)
    requires { Large work.old × (to + count ≤ most_records) × (from + count ≤ most_records) }
    ensures { Copied work.old work.new from to count }
{
    let at = table::LIST + from;
    work.copy_within(at..at + count, table::LIST + to);
}

// The number at place i comes behind the `kept` ones, unless it was left out. Says how many are kept then.
fn keep(work: &mut [u16], i: usize, kept: usize) -> usize
    requires { Large work.old × (i < front_size) × (kept ≤ i) }
    ensures { Moved work.old work.new i kept result }
{
    let r = table::listed(work, i);
    if r == NO_RECORD {
        return kept;
    }
    table::put_listed(work, kept, r);
    kept + 1
}

// Those of the first n places that were not left out come to the front. Says how many they are.
fn close_up(work: &mut [u16], n: usize) -> usize
    requires { Large work.old × (n ≤ front_size) }
    ensures { Together work.old work.new n result }
{
    let mut kept: usize = 0;
    for i in 0..n {
        kept = keep(work, i, kept);
    }
    kept
}

// Takes out the spare ones of all n that wait. Says how many are kept.
pub fn trim(work: &mut [u16], q: Trial) -> usize
    requires { Followed q.task.size q.task.len q.s.0 q.t.0 work.old q.task.n }
    ensures { Pruned q.task.size q.task.len q.s.0 q.t.0 work.old work.new q.task.n result }
{
    let n = q.task.n;
    copy(work, reason_list::WAITING, 0, n);
    list_halve::sift(work, q);
    close_up(work, n)
}
