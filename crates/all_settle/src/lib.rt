// The applications that wait are met, one after the other, until none does. Document 01, "Tags, records, following"; the closure of source document 002. Rests on meaning, table (where things stand), labels
// (keys), all_index (filed applications, and those that wait) and all_join (joins).
//
// An application that waits is looked up by its arguments' labels: what is not found is filed, and what is found makes a join unless the two results have one label. A join may set more to wait.
#![tactic(auto)]

ghost use Rattle.std.specs.Prelude.{◌≡◌, suc, ◌≤◌, ◌<◌, length};
ghost use Rattle.meaning.specs.Limits.{most_records, most_tags};
ghost use Rattle.table.specs.Map.{result_of, label_of, Within};
ghost use Rattle.table.specs.Places.{Large, behind_columns};
ghost use Rattle.table_labels.specs.Chain.{as_link};
ghost use Rattle.all_index.specs.State.{found_in, Filing};
ghost use Rattle.all_settle.specs.State.{Open, Sought, Unifying, Gone};

use all_index::Front;
use all_join::Grounds;
use meaning::{RecordNo, Tag};

// How far the closure is: the joins made, and one more than the first place that waits, or 0.
#[derive(Clone, Copy)]
pub struct Progress {
    pub joins: usize,
    pub first: usize,
}

// The label of an application's result.
pub fn outcome(work: &[u16], r: RecordNo) -> Tag
    requires { Large work.now × (r.0 ≤ most_records) × (result_of work.now r.0 < most_tags) }
    ensures { result.0 ≡ label_of work.now (result_of work.now r.0) }
{
    let t = table::result(work, r);
    table::label(work, t)
}

// The application at place j, the first that waits, meets the one at place p: their results are joined unless they have one label.
fn unify(work: &mut [u16], front: Front, p: usize, j: usize, joins: usize) -> Progress
    requires { Unifying front work.old (suc p) j joins }
    ensures { Gone front work.old joins work.new result.joins result.first }
{
    let q = all_index::number(p);
    let r = all_index::number(j);
    let c = outcome(work, q);
    let d = outcome(work, r);
    if c == d {
        let first = table::wait_after(work, j);
        table::put_chain(work, j, 0);
        return Progress { joins, first };
    }
    let grounds = Grounds { one: q, other: r };
    let first = all_join::join(work, front, joins, j + 1, grounds, c, d);
    Progress {
        joins: joins + 1,
        first,
    }
}

// The place of the application that the chains have for the key x.
pub fn look_up(work: &[u16], front: Front, x: usize) -> Option<usize>
    requires { Filing front work.now }
    ensures { as_link result ≡ found_in work.now x }
{
    let from = table::bucket(work, x % all_index::BUCKET_COUNT);
    all_index::seek(work, front, from, x)
}

// The application at place j, the first that waits, has the key x, and p is what was found for it: where that is nothing it is filed, otherwise the two are met.
pub fn resolve(
    work: &mut [u16],
    front: Front,
    x: usize,
    p: Option<usize>,
    j: usize,
    joins: usize,
) -> Progress
    requires { Sought front work.old x (as_link p) j joins }
    ensures { Gone front work.old joins work.new result.joins result.first }
{
    match p {
        Some(p) => unify(work, front, p, j, joins),
        None => {
            let b = x % all_index::BUCKET_COUNT;
            let q = all_index::above(work, front, b, j);
            let first = all_index::file(work, front, b, q, j);
            Progress { joins, first }
        }
    }
}

// The application at place j, the first that waits, is met: it is looked up by its arguments' labels.
fn meet(work: &mut [u16], front: Front, j: usize, joins: usize) -> Progress
    requires { Open front work.old joins (suc j) }
    ensures { Gone front work.old joins work.new result.joins result.first }
{
    let x = table_labels::key(work, all_index::number(j));
    let p = look_up(work, front, x);
    resolve(work, front, x, p, j, joins)
}

// What waits is met, the first of them each time, until none does. The number of joins then.
pub fn settle(work: &mut [u16], front: Front, joins: usize, first: usize) -> usize
    requires { Open front work.old joins first }
    ensures { Within behind_columns work.old work.new × Open front work.new result 0 × (joins ≤ result) }
{
    let mut made = joins;
    let mut to = first;
    while to != 0 {
        let p = meet(work, front, to - 1, made);
        made = p.joins;
        to = p.first;
    }
    made
}
