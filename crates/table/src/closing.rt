// While all records are closed: the lists of uses, the chains by which applications are found, and those that wait to be met.

ghost use Rattle.std.specs.Prelude.{◌≡◌, ◌+◌, ◌-◌, ◌≤◌, ◌<◌, eqb, set};
ghost use Rattle.meaning.specs.Limits.{most_records, most_tags};
ghost use Rattle.table.specs.Map.{use_of, more_of, chain_of, wait_of, bucket_of};
ghost use Rattle.table.specs.Places.{BUCKETS as buckets_region, Large, WAITS as waits_mark, bucket_count, more_at, use_at, CHAIN as chain_region};

use crate::map::{BUCKETS, CHAIN, MORE, OTHER, SHARES, USES, WAITS};
use meaning::Tag;

// Where the lists of uses begin, by tag, and lead on, by place.
fn uses(second: bool) -> usize
    ensures { result ≡ use_at second }
{
    if second { SHARES } else { USES }
}

fn mores(second: bool) -> usize
    ensures { result ≡ more_at second }
{
    if second { OTHER } else { MORE }
}

// One more than the last place whose record has a tag for its first argument (or second), or 0.
pub fn last_use(work: &[u16], second: bool, x: Tag) -> usize
    requires { Large work.now × (x.0 < most_tags) }
    ensures { result ≡ use_of second work.now x.0 }
{
    usize::from(work[uses(second) + x.place()])
}

// The same of the places before one of them, for its tag.
pub fn use_before(work: &[u16], second: bool, i: usize) -> usize
    requires { Large work.now × (i < most_records) }
    ensures { result ≡ more_of second work.now i }
{
    usize::from(work[mores(second) + i])
}

// The record of place i is the last with the tag x for that argument, and p is what was.
pub fn put_use(work: &mut [u16], second: bool, x: Tag, i: usize, p: usize)
    requires { Large work.old × (x.0 < most_tags) × (i < most_records) × (p ≤ most_records) }
    ensures { work.new ≡ set (set work.old (more_at second + i) p) (use_at second + x.0) (i + 1) }
{
    work[mores(second) + i] = p as u16;
    work[uses(second) + x.place()] = (i + 1) as u16;
}

// Whether the record of a place waits to be met.
pub fn waits(work: &[u16], i: usize) -> bool
    requires { Large work.now × (i < most_records) }
    ensures { result ≡ eqb (chain_of work.now i) 0 }
{
    let v = usize::from(work[CHAIN + i]);
    v == 0 || v >= WAITS
}

// One more than the next place of its chain, or 0.
pub fn link(work: &[u16], i: usize) -> usize
    requires { Large work.now × (i < most_records) }
    ensures { result ≡ chain_of work.now i - 1 }
{
    let v = usize::from(work[CHAIN + i]);
    if v < WAITS { v.saturating_sub(1) } else { 0 }
}

// One more than the next place that waits, or 0.
pub fn wait_after(work: &[u16], i: usize) -> usize
    requires { Large work.now × (i < most_records) }
    ensures { result ≡ wait_of work.now i }
{
    usize::from(work[CHAIN + i]).saturating_sub(WAITS)
}

// The chain of a place leads on to another: p is one more than that, or 0.
pub fn put_chain(work: &mut [u16], i: usize, p: usize)
    requires { Large work.old × (i < most_records) × (p ≤ most_records) }
    ensures { work.new ≡ set work.old (chain_region.at + i) (p + 1) }
{
    work[CHAIN + i] = (p + 1) as u16;
}

// A place waits, and the next that does is another: p is one more than that, or 0.
pub fn put_wait(work: &mut [u16], i: usize, p: usize)
    requires { Large work.old × (i < most_records) × (p ≤ most_records) }
    ensures { work.new ≡ set work.old (chain_region.at + i) (p + waits_mark) }
{
    work[CHAIN + i] = (p + WAITS) as u16;
}

// One more than the first place of a bucket's chain, or 0.
pub fn bucket(work: &[u16], b: usize) -> usize
    requires { Large work.now × (b < bucket_count) }
    ensures { result ≡ bucket_of work.now b }
{
    usize::from(work[BUCKETS + b])
}

// A bucket's chain begins at a place: p is one more than that, or 0.
pub fn put_bucket(work: &mut [u16], b: usize, p: usize)
    requires { Large work.old × (b < bucket_count) × (p ≤ most_records) }
    ensures { work.new ≡ set work.old (buckets_region.at + b) p }
{
    work[BUCKETS + b] = p as u16;
}
