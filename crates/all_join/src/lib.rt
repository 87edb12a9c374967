// The joins of the closure, and how each is kept. Document 01, "Tags, records, following" and "Reasons"; the closure of source document 002, with its lists of uses. Rests on meaning (what follows, the log
// of joins, the forest of links), table (where things stand), table_labels (labels, keys) and all_index (filed applications, and those that wait).
//
// A class has a label, which is one of its tags, and a leader, the smallest. A join relabels the class of fewer tags, as source document 002 does, and keeps that the larger leader went under the smaller.
// A leader has no link. In its place of PARENT the table holds the largest tag of its class, and in its place of AGE the number LEADS, with one more for each other tag of the class. Before a join, the
// applications that it concerns are taken out of their chains and wait.
#![tactic(auto)]

ghost use Rattle.std.specs.Prelude.{◌≡◌, ◌≢◌, ◌⊎◌, ℕ, ◌≤◌, ◌<◌, length};
ghost use Rattle.meaning.specs.Limits.{most_tags};
ghost use Rattle.table.specs.Map.{label_of};
ghost use Rattle.table.specs.Places.{Large};
ghost use Rattle.table_labels.specs.Parts.{Relabelled};
ghost use Rattle.all_join.specs.State.{Standing, Joining, Joined, Named, Kept, lead_of, noted};

use all_index::Front;
use meaning::{RecordNo, Tag};

// A class: its label, and the tag that leads it.
#[derive(Clone, Copy)]
struct Side {
    label: Tag,
    leader: Tag,
}

// The two records that a join rests on: an equation and none, or two applications.
#[derive(Clone, Copy)]
pub struct Grounds {
    pub one: RecordNo,
    pub other: RecordNo,
}

// The join of age `joins` is kept: it linked hi under lo, it rests on two records, and it was made at a third.
fn note(work: &mut [u16], joins: usize, grounds: Grounds, when: RecordNo, lo: Tag, hi: Tag)
    requires { Large work.old × (hi.0 < most_tags) × (joins < most_tags) }
    ensures { work.new ≡ noted work.old lo.0 hi.0 joins grounds.one.0 grounds.other.0 when.0 }
{
    table::put_link(work, hi, lo, joins);
    table::put_join(work, joins, grounds.one, grounds.other, when);
}

// The label `gone` becomes `kept`. No tag below `from` has it, nor one above `top`.
fn rename(work: &mut [u16], kept: Tag, gone: Tag, from: Tag, top: Tag)
    requires { Large work.old × (from.0 ≤ top.0) × (top.0 < most_tags) × ((x : ℕ) → label_of work.old x ≡ gone.0 → (from.0 ≤ x) × (x ≤ top.0)) }
    ensures { Relabelled work.old work.new kept.0 gone.0 }
{
    let start = table::LABEL + table::tag_place(from);
    let end = table::LABEL + table::tag_place(top);
    table_labels::rename(&mut work[start..end + 1], gone, kept);
}

// The larger of two tags.
fn higher(a: Tag, b: Tag) -> Tag
    ensures { (a.0 ≤ result.0) × (b.0 ≤ result.0) × ((result.0 ≡ a.0) ⊎ (result.0 ≡ b.0)) }
{
    if a < b { b } else { a }
}

// The first tag with the label r, which r has itself.
fn first_with(work: &[u16], r: Tag) -> Tag
    requires { Large work.now × (r.0 < most_tags) × (label_of work.now r.0 ≡ r.0) }
    ensures { (label_of work.now result.0 ≡ r.0) × ((y : ℕ) → y < result.0 → label_of work.now y ≢ r.0) }
{
    for x in 0..table::tag_place(r) {
        let t = table::tag_at(x);
        if table::label(work, t) == r {
            return t;
        }
    }
    r
}

// The class that is labelled r, with its leader: r itself where it has no link.
fn class_of(work: &[u16], front: Front, joins: usize, r: Tag) -> Side
    requires { Standing front work.now joins × (r.0 < front.size) × (label_of work.now r.0 ≡ r.0) }
    ensures { (result.label.0 ≡ r.0) × (result.leader.0 ≡ lead_of work.now joins r.0) }
{
    if table::age(work, r) >= meaning::MOST_TAGS {
        return Side {
            label: r,
            leader: r,
        };
    }
    Side {
        label: r,
        leader: first_with(work, r),
    }
}

// What two classes' ages come to. It only tells which of two has fewer tags, so any number from LEADS on is right.
fn joint(a: usize, b: usize) -> usize
    ensures { (most_tags ≤ result) × (result < 65536) }
{
    if 2000 < a {
        return 2000;
    }
    if 2000 < b {
        return 2000;
    }
    let both = a + b;
    if both < 1999 {
        return 1000;
    }
    both - 999
}

// The classes led by x and y become one: the larger leader goes under the smaller, by a join that is kept.
fn keep(work: &mut [u16], joins: usize, grounds: Grounds, when: RecordNo, x: Tag, y: Tag)
    requires { Large work.old × (x.0 < most_tags) × (y.0 < most_tags) × (joins < most_tags) }
    ensures { Kept work.old work.new joins grounds.one.0 grounds.other.0 when.0 x.0 y.0 }
{
    let top = higher(table::parent(work, x), table::parent(work, y));
    let weight = joint(table::age(work, x), table::age(work, y));
    let mut lo = x;
    let mut hi = y;
    if y < x {
        lo = y;
        hi = x;
    }
    note(work, joins, grounds, when, lo, hi);
    table::put_link(work, lo, top, weight);
}

// The class `gone` goes to the class `kept`, by a join that is kept. The first that waits then.
fn unite(
    work: &mut [u16],
    front: Front,
    joins: usize,
    first: usize,
    grounds: Grounds,
    kept: Side,
    gone: Side,
) -> usize
    requires { Joining front work.old joins first grounds.one.0 grounds.other.0 kept.label.0 gone.label.0 × Named front work.old joins kept × Named front work.old joins gone }
    ensures { Joined front work.old joins kept.label.0 gone.label.0 work.new result }
{
    let n = front.places;
    let top = table::parent(work, gone.leader);
    let to = all_index::touch_class(work, front, gone.label, gone.leader, top, first);
    rename(work, kept.label, gone.label, gone.leader, top);
    keep(
        work,
        joins,
        grounds,
        table::record_at(n),
        kept.leader,
        gone.leader,
    );
    to
}

// Whether the class led by x has fewer tags than that led by y, as their ages tell; where they have as many, the larger leader is taken.
fn is_fewer(work: &[u16], x: Tag, y: Tag) -> bool
    requires { Large work.now × (x.0 < most_tags) × (y.0 < most_tags) }
{
    let a = table::age(work, x);
    let b = table::age(work, y);
    if a == b { y < x } else { a < b }
}

// The classes labelled a and b become one, under the label of that with more tags.
pub fn join(
    work: &mut [u16],
    front: Front,
    joins: usize,
    first: usize,
    grounds: Grounds,
    a: Tag,
    b: Tag,
) -> usize
    requires { Joining front work.old joins first grounds.one.0 grounds.other.0 a.0 b.0 }
    ensures { Joined front work.old joins a.0 b.0 work.new result }
{
    let x = class_of(work, front, joins, a);
    let y = class_of(work, front, joins, b);
    let mut kept = x;
    let mut gone = y;
    if is_fewer(work, x.leader, y.leader) {
        kept = y;
        gone = x;
    }
    unite(work, front, joins, first, grounds, kept, gone)
}
