// Adding places to those that are in: the applications that use a class whose label goes wait, and each is looked up among the uses of the lighter of
// its two argument classes. Document 01, "Reasons". Rests on list_rings, on table_labels and on table.
#![tactic(auto)]

ghost use Rattle.std.specs.Prelude.{◌≡◌, ◌≢◌, ◌↔◌, Bool, true, suc, ◌-◌, ◌≤◌, ◌<◌};
ghost use Rattle.meaning.specs.Limits.{most_tags};
ghost use Rattle.meaning.specs.Following.{Follows};
ghost use Rattle.table.specs.Map.{label_of, result_of, place_of, queue_of, end_of, Within};
ghost use Rattle.table.specs.Places.{EQUATION, Large, WEIGHT, all_of, front_size, uses_part};
ghost use Rattle.list_ways.specs.Rings.{Apart};
ghost use Rattle.list_rings.specs.Links.{Ringed};
ghost use Rattle.list_add.specs.Waking.{Listed, Falling, Woken, Awake, Roused, Legible, Match, Sought, Around};
ghost use Rattle.list_add.specs.Filing.{Listing, Filing, Wiped, Begun};
ghost use Rattle.list_add.specs.Adding.{Adding, Added};
ghost use Rattle.list_add.specs.Busy.{InSet, Busy, Went, Fits, Turned, Twinned};
ghost use Rattle.list_add.specs.Pace.{Underway, Forward};

use meaning::{NO_RECORD, RecordNo, Tag};

// Where the queue ends.
const END: usize = table::QUEUE + table::FRONT;

// Place i waits, if it is in and does not yet.
fn wake(work: &mut [u16], i: usize, last: usize) -> usize
    requires { Falling work.old × (i < front_size) × (last ≤ front_size) × Listed work.old i }
    ensures { Woken work.old work.new last result × (queue_of work.new i ≢ 1) }
{
    if table::queued(work, i) == 1 {
        table::put_queued(work, i, last + 2);
        return i + 1;
    }
    last
}

// All those that use a tag do.
fn wake_uses(work: &mut [u16], second: bool, z: Tag, last: usize) -> usize
    requires { Falling work.old × (z.0 < most_tags) × (last ≤ front_size) }
    ensures { Woken work.old work.new last result × Awake second work.old work.new (end_of second work.old z.0) }
{
    let mut p = table::last_place(work, second, z);
    let mut made = last;
    while p != 0 {
        made = wake(work, p - 1, made);
        p = table::place_before(work, second, p - 1);
    }
    made
}

// In either argument.
fn wake_tag(work: &mut [u16], z: Tag, last: usize) -> usize
    requires { Falling work.old × (z.0 < most_tags) × (last ≤ front_size) }
    ensures { Woken work.old work.new last result × ((b : Bool) → Awake b work.old work.new (end_of b work.old z.0)) }
{
    let made = wake_uses(work, false, z, last);
    wake_uses(work, true, z, made)
}

// All those that use a tag of the ring of x wait.
fn wake_class(work: &mut [u16], x: Tag, last: usize) -> usize
    requires { Falling work.old × Ringed work.old x.0 × (last ≤ front_size) }
    ensures { Roused work.old work.new x.0 last result }
{
    let mut z = table::member(work, x);
    let mut made = last;
    while z != x {
        made = wake_tag(work, z, made);
        z = table::member(work, z);
    }
    wake_tag(work, x, made)
}

// Whether place i is in, does not wait, and has arguments labelled a and c.
fn matches(work: &[u16], i: usize, a: Tag, c: Tag) -> bool
    requires { Legible work.now × (i < front_size) }
    ensures { (result ≡ true) ↔ Match work.now a.0 c.0 i }
{
    if table::queued(work, i) != 1 {
        return false;
    }
    let r = table::placed(work, i);
    let x = table::left(work, r);
    let y = table::right(work, r);
    let s = table::label(work, x);
    if s != a {
        return false;
    }
    let t = table::label(work, y);
    t == c
}

// A place that matches, among the uses of z.
fn seek_uses(work: &[u16], second: bool, z: Tag, a: Tag, c: Tag) -> usize
    requires { Legible work.now × (z.0 < most_tags) }
    ensures { Sought work.now second (λ u. u ≡ z.0) a.0 c.0 result }
{
    let mut p = table::last_place(work, second, z);
    while p != 0 {
        if matches(work, p - 1, a, c) {
            return p;
        }
        p = table::place_before(work, second, p - 1);
    }
    0
}

// Among the uses of the tags of the ring of x.
fn seek_class(work: &[u16], second: bool, x: Tag, a: Tag, c: Tag) -> usize
    requires { Legible work.now × Ringed work.now x.0 }
    ensures { Sought work.now second (Around work.now x.0) a.0 c.0 result }
{
    let mut z = table::member(work, x);
    while z != x {
        let p = seek_uses(work, second, z, a, c);
        if p != 0 {
            return p;
        }
        z = table::member(work, z);
    }
    seek_uses(work, second, x, a, c)
}

// What is closed: the first n places of the list, of records 1 to `len` that the table holds of `size` tags.
#[derive(Clone, Copy)]
pub struct Task {
    pub size: usize,
    pub len: usize,
    pub n: usize,
}

// Where the lists of those that wait begin, and how many joins were made.
#[derive(Clone, Copy)]
pub struct Pace {
    pub first: usize,
    pub last: usize,
    pub joins: usize,
}

// The class of x goes into that of y, and the applications that use it wait.
fn absorb(work: &mut [u16], t: Task, s: Pace, x: Tag, y: Tag) -> Pace
    requires { Underway t s work.old × Apart most_tags (label_of work.old) x.0 y.0 × Follows (InSet t.len t.n work.old) x.0 y.0 }
    ensures { Forward t s work.old work.new result × (label_of work.new x.0 ≡ label_of work.new y.0) }
{
    let last = wake_class(work, x, s.last);
    list_rings::join(work, x, y, s.joins);
    Pace {
        first: s.first,
        last: last,
        joins: s.joins + 1,
    }
}

// The lighter of the two classes goes into the other.
fn unite(work: &mut [u16], t: Task, s: Pace, x: Tag, y: Tag) -> Pace
    requires { Underway t s work.old × Apart most_tags (label_of work.old) x.0 y.0 × Follows (InSet t.len t.n work.old) x.0 y.0 }
    ensures { Forward t s work.old work.new result × (label_of work.new x.0 ≡ label_of work.new y.0) }
{
    if list_rings::lighter(work, x, y) {
        absorb(work, t, s, x, y)
    } else {
        absorb(work, t, s, y, x)
    }
}

// The first of this round's list does not wait any longer.
fn pop(work: &mut [u16], t: Task, s: Pace) -> Pace
    requires { Underway t s work.old × (0 < s.first) × Fits work.old (s.first - 1) }
    ensures { Forward t s work.old work.new result }
{
    let j = s.first - 1;
    let v = table::queued(work, j);
    table::put_queued(work, j, 1);
    Pace {
        first: v - 2,
        last: s.last,
        joins: s.joins,
    }
}

// From one round to the next.
fn turn(s: Pace) -> Pace
    ensures { Turned s.first s.last result.first result.last × (result.joins ≡ s.joins) }
{
    if s.first != 0 {
        return s;
    }
    Pace {
        first: s.last,
        last: 0,
        joins: s.joins,
    }
}

// An application that is in, does not wait, and has the argument labels of place j: one more than its place, or 0.
fn twin(work: &[u16], t: Task, s: Pace, j: usize) -> usize
    requires { Underway t s work.now × (s.first ≡ suc j) }
    ensures { Twinned work.now j result }
{
    let r = table::placed(work, j);
    let x = table::left(work, r);
    let y = table::right(work, r);
    let a = table::label(work, x);
    let c = table::label(work, y);
    if list_rings::lighter(work, a, c) {
        seek_class(work, false, a, a, c)
    } else {
        seek_class(work, true, c, a, c)
    }
}

// The first that waits meets the one that the link p leads to: their results are joined, unless they have one label.
fn meet(work: &mut [u16], t: Task, s: Pace, j: usize, p: usize) -> Pace
    requires { Underway t s work.old × (s.first ≡ suc j) × Twinned work.old j p × (0 < p) }
    ensures { Forward t s work.old work.new result }
{
    let r = table::placed(work, j);
    let q = table::placed(work, p - 1);
    let x = table::result(work, r);
    let y = table::result(work, q);
    let u = table::label(work, x);
    let v = table::label(work, y);
    if u == v {
        return pop(work, t, s);
    }
    unite(work, t, s, u, v)
}

// The first that waits is looked up.
fn step(work: &mut [u16], t: Task, s: Pace) -> Pace
    requires { Underway t s work.old × (0 < s.first) }
    ensures { Forward t s work.old work.new result }
{
    let j = s.first - 1;
    let p = twin(work, t, s, j);
    if p == 0 {
        return pop(work, t, s);
    }
    meet(work, t, s, j, p)
}

// Until none waits. The number of joins then.
fn settle(work: &mut [u16], t: Task, s: Pace) -> usize
    requires { Underway t s work.old }
    ensures { Busy t.size t.len t.n work.new 0 0 result × Went work.old work.new s.joins result }
{
    let mut r = s;
    loop {
        let q = turn(r);
        if q.first == 0 {
            return q.joins;
        }
        r = step(work, t, q);
    }
}

// The application at place i comes in. The number of joins then.
fn add_application(work: &mut [u16], t: Task, i: usize, k: usize) -> usize
    requires { Adding t.size t.len t.n work.old i (suc i) k × (place_of work.old i ≢ 0) × (result_of work.old (place_of work.old i) ≢ EQUATION) }
    ensures { Added t.size t.len t.n work.old work.new i (suc i) k result }
{
    table::put_queued(work, i, 2);
    let s = Pace {
        first: i + 1,
        last: 0,
        joins: k,
    };
    settle(work, t, s)
}

// The equation at place i comes in.
fn add_equation(work: &mut [u16], t: Task, r: RecordNo, i: usize, k: usize) -> usize
    requires { Adding t.size t.len t.n work.old i (suc i) k × (place_of work.old i ≢ 0) × (result_of work.old (place_of work.old i) ≡ EQUATION) × (r.0 ≡ place_of work.old i) }
    ensures { Added t.size t.len t.n work.old work.new i (suc i) k result }
{
    table::put_queued(work, i, 1);
    let x = table::left(work, r);
    let y = table::right(work, r);
    let a = table::label(work, x);
    let c = table::label(work, y);
    if a == c {
        return k;
    }
    let s = Pace {
        first: 0,
        last: 0,
        joins: k,
    };
    let q = unite(work, t, s, a, c);
    settle(work, t, q)
}

// The record at place i comes in, if there is one.
fn add(work: &mut [u16], t: Task, i: usize, k: usize) -> usize
    requires { Adding t.size t.len t.n work.old i (suc i) k }
    ensures { Added t.size t.len t.n work.old work.new i (suc i) k result }
{
    let r = table::placed(work, i);
    if r == NO_RECORD {
        return k;
    }
    if table::is_equation(work, r) {
        return add_equation(work, t, r, i, k);
    }
    add_application(work, t, i, k)
}

// The records of the places lo..hi come in. The number of joins then.
pub fn add_each(work: &mut [u16], t: Task, lo: usize, hi: usize, k: usize) -> usize
    requires { Adding t.size t.len t.n work.old lo hi k }
    ensures { Added t.size t.len t.n work.old work.new lo hi k result }
{
    let mut made = k;
    for i in lo..hi {
        made = add(work, t, i, made);
    }
    made
}

// The application at place i comes to the lists of its two arguments.
fn file(work: &mut [u16], t: Task, i: usize)
    requires { Filing t.size t.len t.n work.old i × (i < t.n) }
    ensures { Filing t.size t.len t.n work.new (suc i) × Within uses_part work.old work.new }
{
    let r = table::placed(work, i);
    if table::is_equation(work, r) {
        return;
    }
    let x = table::left(work, r);
    let y = table::right(work, r);
    table::put_place(work, false, x, i);
    table::put_place(work, true, y, i);
}

// All of them do.
fn file_each(work: &mut [u16], t: Task)
    requires { Filing t.size t.len t.n work.old 0 }
    ensures { Filing t.size t.len t.n work.new t.n × Within uses_part work.old work.new }
{
    for i in 0..t.n {
        file(work, t, i);
    }
}

// A class is the heavier the more applications use it.
fn weigh(work: &mut [u16], t: Task, i: usize)
    requires { Filing t.size t.len t.n work.old t.n × (i < t.n) }
    ensures { Within (all_of WEIGHT) work.old work.new }
{
    let r = table::placed(work, i);
    let x = table::left(work, r);
    let y = table::right(work, r);
    list_rings::burden(work, x);
    list_rings::burden(work, y);
}

fn weigh_each(work: &mut [u16], t: Task)
    requires { Filing t.size t.len t.n work.old t.n }
    ensures { Within (all_of WEIGHT) work.old work.new }
{
    for i in 0..t.n {
        weigh(work, t, i);
    }
}

// No place uses a tag, and none is in.
fn wipe(work: &mut [u16])
    requires { Large work.old }
    ensures { Wiped work.old work.new }
{
    work[table::ENDS..END].fill(0);
}

// Each tag is a class of its own, no place is in, and the first n can be added.
pub fn begin(work: &mut [u16], t: Task)
    requires { Listing t.size t.len t.n work.old }
    ensures { Begun t.size t.len t.n work.old work.new }
{
    list_rings::scatter(work);
    wipe(work);
    file_each(work, t);
    weigh_each(work, t);
}
