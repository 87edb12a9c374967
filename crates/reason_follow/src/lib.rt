// Following a reason through the joins: across the newest join between two tags, along both sides of it and into its argument pairs,
// all of which rest on older joins. Document 01, "Reasons". What waits to be followed stands in the work table, and the one function
// that calls itself keeps little for that call, so that less stack is needed (document 02, No. 5; bench/stack measures it). Labels remember which tags
// are shown equal, and between these no way is followed again. Rests on moment, table_labels and table.
#![tactic(auto)]

ghost use Rattle.std.specs.Prelude.{◌≡◌, ◌≢◌, ℕ, suc, ◌+◌, ◌≤◌, ◌<◌, length, set};
ghost use Rattle.meaning.specs.Needed.{tags};
ghost use Rattle.meaning.specs.Limits.{most_tags};
ghost use Rattle.table.specs.Map.{label_of, next_of, Within};
ghost use Rattle.table.specs.Places.{Large, MARKS};
ghost use Rattle.moment.specs.Holding.{Holds};
ghost use Rattle.reason_follow.specs.Shown.{Remembers, Noted, Taken, Forgot, order_part};
ghost use Rattle.reason_follow.specs.Tracing.{Together, Unfollowed, Crossed, Ended, Sided, Caused, Rested, Swept, Traced, Unmarked};
ghost use Rattle.reason_follow.specs.Ways.{Listed, Read, Turned, Put, Asks, Nearest, Passed};
ghost use Rattle.reason_follow.specs.Walking.{Underway, Further};

use meaning::{NO_RECORD, RecordNo, Tag};
use table::{LABEL, NEXT};

// Where the order in which joins are taken stands, behind those that wait: by place the join's age, and how many there are.
const ORDER: usize = meaning::MOST_TAGS;

const TAKEN: usize = 2 * meaning::MOST_TAGS;

// The two tags that a join brought together.
fn ends(work: &[u16], b: usize) -> (Tag, Tag)
    requires { Holds work.now (suc b) }
    ensures { Ended work.now b result.0.0 result.1.0 }
{
    let p = table::first(work, b);
    let q = table::second(work, b);
    if q == NO_RECORD {
        (table::left(work, p), table::right(work, p))
    } else {
        (table::result(work, p), table::result(work, q))
    }
}

// The two tags that a join brought together, the one on the side of s first.
fn sides(work: &[u16], s: Tag, t: Tag, b: usize) -> (Tag, Tag)
    requires { Crossed work.now s.0 t.0 b }
    ensures { Sided work.now s.0 t.0 b result.0.0 result.1.0 }
{
    let (near, far) = ends(work, b);
    let l = moment::leader(work, b, s);
    let m = moment::leader(work, b, near);
    if l == m { (near, far) } else { (far, near) }
}

// A join's second record, and the argument pairs of its two records: a with a2, c with c2.
#[derive(Clone, Copy)]
pub struct Causes {
    pub second: RecordNo,
    pub a: Tag,
    pub a2: Tag,
    pub c: Tag,
    pub c2: Tag,
}

fn causes_of(work: &[u16], b: usize) -> Causes
    requires { Holds work.now (suc b) }
    ensures { Caused work.now b result.second.0 result.a.0 result.a2.0 result.c.0 result.c2.0 }
{
    let p = table::first(work, b);
    let q = table::second(work, b);
    let a = table::left(work, p);
    let a2 = table::left(work, q);
    let c = table::right(work, p);
    let c2 = table::right(work, q);
    Causes {
        second: q,
        a,
        a2,
        c,
        c2,
    }
}

// A join that waits to be crossed: its age, and the two tags that it brought together, the one that the way comes from first.
#[derive(Clone, Copy)]
pub struct Turn {
    pub age: usize,
    pub near: Tag,
    pub far: Tag,
}

// The join that waits at place n: it stands there by its age, and by 1,000 more where it is crossed from its second tag to its first.
fn waiting(work: &[u16], n: usize) -> Turn
    requires { Listed work.now n }
    ensures { Read work.now n result.age result.near.0 result.far.0 }
{
    let v = table::next(work, n);
    if v < meaning::MOST_TAGS {
        let (near, far) = ends(work, v);
        Turn { age: v, near, far }
    } else {
        let b = v - meaning::MOST_TAGS;
        let (near, far) = ends(work, b);
        Turn {
            age: b,
            near: far,
            far: near,
        }
    }
}

// Has the join of age b wait at place n, to be crossed from `near`, which is one of its tags.
fn put_waiting(work: &mut [u16], n: usize, b: usize, e: (Tag, Tag))
    requires { Turned work.old n b e.0.0 e.1.0 }
    ensures { Put work.old work.new n b e.0.0 e.1.0 }
{
    let (near, _) = e;
    let (first, _) = ends(work, b);
    if near == first {
        table::put_next(work, n, b);
    } else {
        table::put_next(work, n, meaning::MOST_TAGS + b);
    }
}

// Where a way between two tags has come: to the tag `at`. The next tag that is known of it is `to`, the joins up to there are older than `below`, and so many
// joins wait to be crossed behind that.
#[derive(Clone, Copy)]
pub struct Way {
    pub at: Tag,
    pub to: Tag,
    pub below: usize,
    pub waiting: usize,
}

// The newest join up to the next known tag is found. It waits, and the way is known to its near end.
fn split(work: &mut [u16], t: Tag, p: Way) -> Way
    requires { Underway work.old t.0 p × (p.at.0 ≢ p.to.0) }
    ensures { Further work.old t.0 p work.new result }
{
    let at = p.at;
    let to = p.to;
    let n = p.waiting;
    let b = moment::met_before(work, p.below, at, to);
    let e = sides(work, at, to, b);
    let (near, _) = e;
    put_waiting(work, n, b, e);
    Way {
        at,
        to: near,
        below: b,
        waiting: n + 1,
    }
}

// The tag up to which a way to t is known, where n joins wait: the near end of the last of them, or t.
fn known(work: &[u16], t: Tag, n: usize) -> Tag
    requires { Asks work.now n }
    ensures { Nearest work.now t.0 n result.0 }
{
    if n == 0 {
        return t;
    }
    let r = waiting(work, n - 1);
    r.near
}

// It is remembered that x and y are shown equal.
fn note(work: &mut [u16], x: Tag, y: Tag)
    requires { Large work.old × (x.0 < most_tags) × (y.0 < most_tags) }
    ensures { Noted work.old work.new x.0 y.0 }
{
    let a = table::label(work, x);
    let b = table::label(work, y);
    table_labels::rename(&mut work[LABEL..NEXT], a, b);
}

// How many joins were taken in their order. Any number is right.
pub fn taken_count(work: &[u16]) -> usize
    requires { Large work.now }
    ensures { result ≤ most_tags }
{
    let c = table::next(work, TAKEN);
    if c < meaning::MOST_TAGS {
        return c;
    }
    meaning::MOST_TAGS
}

// The age of the join that was taken at place i. Any number is right.
pub fn taken_at(work: &[u16], i: usize) -> usize
    requires { Large work.now × (i < most_tags) }
    ensures { result ≡ next_of work.now (most_tags + i) }
{
    table::next(work, ORDER + i)
}

// The join of age b comes behind those that were taken.
fn put_taken(work: &mut [u16], b: usize)
    requires { Large work.old × (b < most_tags) }
    ensures { Within order_part work.old work.new }
{
    let c = taken_count(work);
    if c < meaning::MOST_TAGS {
        table::put_next(work, ORDER + c, b);
        table::put_next(work, TAKEN, c + 1);
    }
}

// The join of age b is taken, unless it is already.
fn take(work: &mut [u16], b: usize)
    requires { Large work.old × (b < most_tags) }
    ensures { Taken work.old work.new b }
{
    if table::mark(work, b) == 1 {
        return;
    }
    put_taken(work, b);
    table::put_mark(work, b);
}

// Nothing is shown yet, and no join is taken.
fn forget(work: &mut [u16])
    requires { Large work.old }
    ensures { Forgot work.old work.new }
{
    table_labels::fresh(work);
    table::put_next(work, TAKEN, 0);
}

// The way to the near end of the last join that waits is shown. That join is crossed, and taken.
fn cross(work: &mut [u16], t: Tag, p: Way) -> Way
    requires { Underway work.old t.0 p × (label_of work.old p.at.0 ≡ label_of work.old p.to.0) × (label_of work.old p.at.0 ≢ label_of work.old t.0) }
    ensures { Further work.old t.0 p work.new result }
{
    let n = p.waiting - 1;
    let r = waiting(work, n);
    let near = r.near;
    let far = r.far;
    let b = r.age;
    let y = known(work, t, n);
    take(work, b);
    note(work, near, far);
    Way {
        at: far,
        to: y,
        below: b,
        waiting: n,
    }
}

// One step on a way that is not shown to the end: up to the next known tag it may be.
fn step(work: &mut [u16], t: Tag, p: Way) -> Way
    requires { Underway work.old t.0 p × (label_of work.old p.at.0 ≢ label_of work.old t.0) }
    ensures { Further work.old t.0 p work.new result }
{
    let at = p.at;
    let to = p.to;
    if table_labels::level(work, at, to) {
        return cross(work, t, p);
    }
    split(work, t, p)
}

// Marks joins older than `limit` until marked ones lead from s to t.
fn pass(work: &mut [u16], s: Tag, t: Tag, limit: usize)
    requires { Together work.old s.0 t.0 limit × Remembers work.old limit }
    ensures { Passed work.old work.new limit s.0 t.0 }
{
    let mut p = Way {
        at: s,
        to: t,
        below: limit,
        waiting: 0,
    };
    while !table_labels::level(work, p.at, t) {
        p = step(work, t, p);
    }
}

// Where the join of age b is marked and rests on two argument pairs, marks the joins that lead between these.
fn rest(work: &mut [u16], b: usize)
    requires { Holds work.old (suc b) × Remembers work.old b }
    ensures { Rested work.old work.new b }
{
    if table::mark(work, b) != 1 {
        return;
    }
    let k = causes_of(work, b);
    let second = k.second;
    if second == NO_RECORD {
        return;
    }
    let a = k.a;
    let a2 = k.a2;
    let c = k.c;
    let c2 = k.c2;
    pass(work, a, a2, b);
    pass(work, c, c2, b);
}

// Follows the argument pairs of the marked joins older than `limit`, from the newest down: those of a join rest on joins older than itself. This is the recursion that
// document 01 names, and the only one here.
fn rest_all(work: &mut [u16], limit: usize)
    requires { Holds work.old limit × Remembers work.old limit }
    ensures { Swept work.old work.new limit }
{
    if limit > 0 {
        let b = limit - 1;
        rest(work, b);
        rest_all(work, b);
    }
}

// Marks joins older than `limit` that show s and t equal, with all that those rest on. None of these joins is marked before.
pub fn trace(work: &mut [u16], s: Tag, t: Tag, limit: usize)
    requires { Unfollowed work.old s.0 t.0 limit }
    ensures { Traced work.old work.new limit s.0 t.0 (tags s.0 t.0) }
{
    forget(work);
    pass(work, s, t, limit);
    rest_all(work, limit);
}

// A join is not taken into a reason.
pub fn unmark(work: &mut [u16], a: usize)
    requires { Large work.old × (a < most_tags) }
    ensures { work.new ≡ set work.old (MARKS.at + a) 0 }
{
    work[table::MARKS + a] = 0;
}

// None of the first n joins is.
pub fn unmark_all(work: &mut [u16], n: usize)
    requires { Large work.old × (n ≤ most_tags) }
    ensures { Unmarked work.old work.new n }
{
    work[table::MARKS..table::MARKS + n].fill(0);
}
