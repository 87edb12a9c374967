// How applications are filed by their arguments, wait and are found. The closure of source document 002, with its lists of uses. Rests on meaning, table (where things stand) and table_labels (labels, keys).
//
// Applications are filed by their arguments' labels in chains that lead to lower places. Before a join, the lists of the tags that it relabels tell which applications it concerns: these are taken out of
// their chains and wait, in front of those that wait already.
#![tactic(auto)]

ghost use Rattle.std.specs.Prelude.{◌≡◌, ◌⊎◌, false, ℕ, suc, ◌%◌, ◌≤◌, ◌<◌, length};
ghost use Rattle.meaning.specs.Limits.{most_records, most_tags};
ghost use Rattle.table.specs.Map.{left_of, right_of, label_of, use_of, more_of, chain_of, Within};
ghost use Rattle.table.specs.Places.{Large, bucket_count, file_part};
ghost use Rattle.table_labels.specs.Chain.{as_link, seek_to, hits};
ghost use Rattle.all_index.specs.Filing.{On, link};
ghost use Rattle.all_index.specs.Waiting.{waiting};
ghost use Rattle.all_index.specs.State.{eqn_at, key_at, found_in, Filing, Queued, Indexed, Touched, behind_in, Above, Led};

use meaning::Tag;
use table_labels::Chains;
pub use table_labels::number;

// The first `places` of the records 1 to `len` that the table holds of `size` tags are in.
#[derive(Clone, Copy)]
pub struct Front {
    pub size: usize,
    pub len: usize,
    pub places: usize,
}

// The number of buckets.
pub const BUCKET_COUNT: usize = 761;

// The chains that applications are filed in.
struct Filed;

impl Chains for Filed {
    ghost leads = { λ w. link (chain_of w) };

    fn next(work: &[u16], j: usize) -> usize {
        table::link(work, j)
    }
}

// The first place from a link on whose record has the key x.
pub fn seek(work: &[u16], front: Front, from: usize, x: usize) -> Option<usize>
    requires { Filing front work.now × (from ≤ front.places) }
    ensures { as_link result ≡ seek_to (link (chain_of work.now)) (hits (key_at work.now) x) from }
{
    table_labels::seek::<Filed>(work, from, x)
}

// The last link of a bucket's chain to a place above j, or 0.
pub fn above(work: &[u16], front: Front, b: usize, j: usize) -> usize
    requires { Filing front work.now × (b < bucket_count) × (j < front.places) }
    ensures { Above work.now b j result }
{
    let mut q = 0;
    let mut p = table::bucket(work, b);
    while j + 1 < p {
        q = p;
        p = table::link(work, p - 1);
    }
    q
}

// What stands behind the place of a link q in a bucket's chain, or at its head where q is 0.
fn behind(work: &[u16], b: usize, q: usize) -> usize
    requires { Large work.now × (b < bucket_count) × (q ≤ most_records) }
    ensures { result ≡ behind_in work.now b q }
{
    if q == 0 {
        return table::bucket(work, b);
    }
    table::link(work, q - 1)
}

// The link p comes to stand there.
fn lead(work: &mut [u16], b: usize, q: usize, p: usize)
    requires { Large work.old × (b < bucket_count) × (q ≤ most_records) × (p ≤ most_records) }
    ensures { Led work.old work.new b q p }
{
    if q == 0 {
        table::put_bucket(work, b, p);
        return;
    }
    table::put_chain(work, q - 1, p);
}

// The application at place j leaves the chain of its bucket, if it stands there, and waits before all others.
fn take_out(work: &mut [u16], front: Front, b: usize, q: usize, j: usize, first: usize)
    requires { Filing front work.old × Queued front work.old first × (j < front.places) × (eqn_at work.old j ≡ false) × (0 < chain_of work.old j) × (b ≡ key_at work.old j % bucket_count) × Above work.old b j q }
    ensures { Touched front work.old work.new (suc j) × (chain_of work.new j ≡ 0) }
{
    let p = table::link(work, j);
    if behind(work, b, q) == j + 1 {
        lead(work, b, q, p);
        table::put_wait(work, j, first);
        return;
    }
    table::put_wait(work, j, first);
}

// The application at place j waits. The first that does then.
fn touch(work: &mut [u16], front: Front, j: usize, first: usize) -> usize
    requires { Filing front work.old × Queued front work.old first × (j < front.places) × (eqn_at work.old j ≡ false) }
    ensures { Touched front work.old work.new result × (chain_of work.new j ≡ 0) }
{
    if table::waits(work, j) {
        return first;
    }
    let x = table_labels::key(work, number(j));
    let b = x % BUCKET_COUNT;
    let q = above(work, front, b, j);
    take_out(work, front, b, q, j, first);
    j + 1
}

// All applications wait that have a tag for their first argument (or second).
fn touch_uses(work: &mut [u16], front: Front, second: bool, x: Tag, first: usize) -> usize
    requires { Indexed front work.old first × (x.0 < most_tags) }
    ensures { Touched front work.old work.new result × ((j : ℕ) → On (more_of second work.old) (use_of second work.old x.0) j → chain_of work.new j ≡ 0) }
{
    let mut p = table::last_use(work, second, x);
    let mut to = first;
    while p != 0 {
        to = touch(work, front, p - 1, to);
        p = table::use_before(work, second, p - 1);
    }
    to
}

// All applications wait that have a tag for an argument.
fn touch_tag(work: &mut [u16], front: Front, x: Tag, first: usize) -> usize
    requires { Indexed front work.old first × (x.0 < most_tags) }
    ensures { Touched front work.old work.new result × ((j : ℕ) → j < front.places → eqn_at work.old j ≡ false → (left_of work.old (suc j) ≡ x.0) ⊎ (right_of work.old (suc j) ≡ x.0) → chain_of work.new j ≡ 0) }
{
    let to = touch_uses(work, front, false, x, first);
    touch_uses(work, front, true, x, to)
}

// All applications wait that have the tag x for an argument, if x is labelled hi.
fn touch_labelled(work: &mut [u16], front: Front, hi: Tag, x: Tag, first: usize) -> usize
    requires { Indexed front work.old first × (x.0 < most_tags) }
    ensures { Touched front work.old work.new result × ((j : ℕ) → j < front.places → eqn_at work.old j ≡ false → label_of work.old x.0 ≡ hi.0 → (left_of work.old (suc j) ≡ x.0) ⊎ (right_of work.old (suc j) ≡ x.0) → chain_of work.new j ≡ 0) }
{
    if table::label(work, x) == hi {
        return touch_tag(work, front, x, first);
    }
    first
}

// All applications wait that have a tag labelled `gone` for an argument. No tag below `from` is, nor one above `top`.
pub fn touch_class(
    work: &mut [u16],
    front: Front,
    gone: Tag,
    from: Tag,
    top: Tag,
    first: usize,
) -> usize
    requires { Indexed front work.old first × (top.0 < most_tags) × ((x : ℕ) → label_of work.old x ≡ gone.0 → (from.0 ≤ x) × (x ≤ top.0)) }
    ensures { Touched front work.old work.new result × ((j : ℕ) → j < front.places → eqn_at work.old j ≡ false → (label_of work.old (left_of work.old (suc j)) ≡ gone.0) ⊎ (label_of work.old (right_of work.old (suc j)) ≡ gone.0) → chain_of work.new j ≡ 0) }
{
    let mut to = first;
    for x in table::tag_place(from)..table::tag_place(top) + 1 {
        to = touch_labelled(work, front, gone, table::tag_at(x), to);
    }
    to
}

// The application at place j, the first that waits, is filed in the chain of its bucket, behind the place of the link q. The first that waits then.
pub fn file(work: &mut [u16], front: Front, b: usize, q: usize, j: usize) -> usize
    requires { Filing front work.old × Queued front work.old (suc j) × (b ≡ key_at work.old j % bucket_count) × (found_in work.old (key_at work.old j) ≡ 0) × Above work.old b j q }
    ensures { Within file_part work.old work.new × Filing front work.new × Queued front work.new result × (waiting front.places (chain_of work.new) < waiting front.places (chain_of work.old)) }
{
    let next = table::wait_after(work, j);
    let p = behind(work, b, q);
    table::put_chain(work, j, p);
    lead(work, b, q, j + 1);
    next
}
