// The reason of a plain harness sheet, found: a search by levels from one tag over the equations before the question, with the best last record for each
// tag, and the records of the way back. Document 02, No. 8. Rests on harness_meaning, for why it is right, on harness_table, where it stands, and on table.
#![tactic(auto)]

ghost use Rattle.std.specs.Prelude.{◌≡◌, ℕ, suc, ◌+◌, ◌≤◌, ◌<◌, length};
ghost use Rattle.meaning.specs.Limits.{most_records, most_tags};
ghost use Rattle.table.specs.Map.{left_of, right_of};
ghost use Rattle.table.specs.Places.{Large};
ghost use Rattle.harness_meaning.specs.Search.{far as farOf, sooner};
ghost use Rattle.harness_table.specs.Levels.{lev_in, last_in};
ghost use Rattle.harness_find.specs.Table.{Trial, Offered, Trying, Went, Rising, Risen, Blank, Begins, Sought, Searched, Traceable, Traced};

use harness_table::UNFOUND;
use meaning::{RecordNo, Tag};

// The other end of a record.
fn far(work: &[u16], k: RecordNo, v: Tag) -> Tag
    requires { Large work.now × (k.0 ≤ most_records) }
    ensures { result.0 ≡ farOf (left_of work.now) (right_of work.now) k.0 v.0 }
{
    let a = table::left(work, k);
    if v == a {
        return table::right(work, k);
    }
    a
}

// Of two ways that end in one tag, by record k from u and by record j from v, both of level d: whether the first has the smaller number behind the place
// where they part.
fn is_sooner(work: &[u16], d: usize, u: Tag, v: Tag, k: usize, j: usize) -> bool
    requires { Trial work.now d × (lev_in work.now u.0 ≡ d) × (lev_in work.now v.0 ≡ d) }
    ensures { result ≡ sooner (left_of work.now) (right_of work.now) (last_in work.now) d u.0 v.0 k j }
{
    let mut x = u;
    let mut y = v;
    let mut p = k;
    let mut q = j;
    for _ in 0..d {
        if x == y {
            return p < q;
        }
        let e = harness_table::last_record(work, x);
        let f = harness_table::last_record(work, y);
        let i = table::record_place(e);
        let h = table::record_place(f);
        p = p.min(i);
        q = q.min(h);
        x = far(work, e, x);
        y = far(work, f, y);
    }
    p < q
}

// Record k leads from u, of level d, to v, of the next: it becomes v's last where its way is the better one.
fn improve(work: &mut [u16], d: usize, k: RecordNo, u: Tag, v: Tag)
    requires { Trial work.old d × (lev_in work.old u.0 ≡ d) × (lev_in work.old v.0 ≡ suc d) }
    ensures { Offered work.old work.new d k.0 u.0 v.0 }
{
    let j = harness_table::last_record(work, v);
    let y = far(work, j, v);
    let p = table::record_place(k);
    let q = table::record_place(j);
    if is_sooner(work, d, u, y, p, q) {
        harness_table::put_last_record(work, v, k);
        return;
    }
}

// Record k leads from u, of level d, to v: it may find v, or be a better last record for it.
fn lead(work: &mut [u16], d: usize, k: RecordNo, u: Tag, v: Tag)
    requires { Trial work.old d × (lev_in work.old u.0 ≡ d) × (v.0 < most_tags) }
    ensures { Offered work.old work.new d k.0 u.0 v.0 }
{
    let l = harness_table::level(work, v);
    if l == UNFOUND {
        harness_table::put_level(work, v, d + 1);
        harness_table::put_last_record(work, v, k);
        return;
    }
    if l == d + 1 {
        improve(work, d, k, u, v);
        return;
    }
}

// Record k is tried from u towards v, which it does if u is of level d.
fn offer(work: &mut [u16], d: usize, k: RecordNo, u: Tag, v: Tag)
    requires { Trial work.old d × (u.0 < most_tags) × (v.0 < most_tags) }
    ensures { Offered work.old work.new d k.0 u.0 v.0 }
{
    if harness_table::level(work, u) == d {
        lead(work, d, k, u, v);
        return;
    }
}

// Record k + 1, in both directions.
fn try_record(work: &mut [u16], d: usize, k: usize)
    requires { Trying work.old d k }
    ensures { Went work.old work.new d k }
{
    let r = table::record_at(k + 1);
    let a = table::left(work, r);
    let b = table::right(work, r);
    offer(work, d, r, a, b);
    offer(work, d, r, b, a);
}

// The level above d: every record before the question is tried from the tags of level d.
fn rise(work: &mut [u16], before: usize, d: usize)
    requires { Rising work.old before d }
    ensures { Risen work.old work.new before d }
{
    for k in 0..before {
        try_record(work, d, k);
    }
}

// No tag is found.
fn clear_levels(work: &mut [u16])
    requires { Large work.old }
    ensures { Blank work.old work.new most_tags }
{
    work[table::MARKS..table::SAVED].fill(UNFOUND as u16);
}

// The tag s alone is found, at level 0.
fn begin(work: &mut [u16], s: Tag)
    requires { Large work.old × (s.0 < most_tags) }
    ensures { Begins work.old work.new s.0 }
{
    clear_levels(work);
    harness_table::put_level(work, s, 0);
}

// Level by level from s until t is found. Says t's level.
pub fn search(work: &mut [u16], before: usize, s: Tag, t: Tag) -> usize
    requires { Sought work.old before s.0 t.0 }
    ensures { Searched work.old work.new before s.0 t.0 result }
{
    begin(work, s);
    let mut d: usize = 0;
    while harness_table::level(work, t) == UNFOUND {
        rise(work, before, d);
        d += 1;
    }
    harness_table::level(work, t)
}

// The records of the n steps back from t come into the list.
pub fn trace(work: &mut [u16], t: Tag, n: usize)
    requires { Traceable work.old t.0 n }
    ensures { Traced work.old work.new t.0 n }
{
    let mut v = t;
    for i in 0..n {
        let k = harness_table::last_record(work, v);
        table::put_listed(work, i, k);
        v = far(work, k, v);
    }
}
