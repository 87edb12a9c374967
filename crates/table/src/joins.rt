// The links by tag and the joins by age, which the closure of all records keeps, and the numbers that are kept for pairs that must differ.

ghost use Rattle.std.specs.Prelude.{◌≡◌, ◌+◌, ◌<◌, set};
ghost use Rattle.meaning.specs.Limits.{most_tags, most_differs};
ghost use Rattle.table.specs.Map.{parent_of, age_of, first_of, second_of, when_of, since_of};
ghost use Rattle.table.specs.Places.{AGE as age_region, FIRST as first_region, Large, PARENT as parent_region, SECOND as second_region, WHEN as when_region, SINCE as since_region};

use crate::map::{AGE, FIRST, PARENT, SECOND, SINCE, WHEN};
use meaning::{RecordNo, Tag};

// The tag that a tag was linked under.
pub fn parent(work: &[u16], x: Tag) -> Tag
    requires { Large work.now × (x.0 < most_tags) }
    ensures { result.0 ≡ parent_of work.now x.0 }
{
    Tag::of(work[PARENT + x.place()])
}

// The age of the join that linked a tag, or LEADS and more.
pub fn age(work: &[u16], x: Tag) -> usize
    requires { Large work.now × (x.0 < most_tags) }
    ensures { result ≡ age_of work.now x.0 }
{
    usize::from(work[AGE + x.place()])
}

// A tag goes under another, by the join of age i; or it leads its class, and i is LEADS or more.
pub fn put_link(work: &mut [u16], x: Tag, under: Tag, i: usize)
    requires { Large work.old × (x.0 < most_tags) × (i < 65536) }
    ensures { work.new ≡ set (set work.old (parent_region.at + x.0) under.0) (age_region.at + x.0) i }
{
    let k = x.place();
    work[PARENT + k] = under.number();
    work[AGE + k] = i as u16;
}

// A join's first record.
pub fn first(work: &[u16], i: usize) -> RecordNo
    requires { Large work.now × (i < most_tags) }
    ensures { result.0 ≡ first_of work.now i }
{
    RecordNo::of(work[FIRST + i])
}

// Its second, or 0 for the join of an equation.
pub fn second(work: &[u16], i: usize) -> RecordNo
    requires { Large work.now × (i < most_tags) }
    ensures { result.0 ≡ second_of work.now i }
{
    RecordNo::of(work[SECOND + i])
}

// The record at which it was made.
pub fn when(work: &[u16], i: usize) -> RecordNo
    requires { Large work.now × (i < most_tags) }
    ensures { result.0 ≡ when_of work.now i }
{
    RecordNo::of(work[WHEN + i])
}

// The records of the join of age i, and the record at which it was made.
pub fn put_join(work: &mut [u16], i: usize, first: RecordNo, second: RecordNo, when: RecordNo)
    requires { Large work.old × (i < most_tags) }
    ensures { work.new ≡ set (set (set work.old (first_region.at + i) first.0) (second_region.at + i) second.0) (when_region.at + i) when.0 }
{
    work[FIRST + i] = first.number();
    work[SECOND + i] = second.number();
    work[WHEN + i] = when.number();
}

// The number that is kept for a pair that must differ, by its place.
pub fn since(work: &[u16], i: usize) -> usize
    requires { Large work.now × (i < most_differs) }
    ensures { result ≡ since_of work.now i }
{
    usize::from(work[SINCE + i])
}

// A number is kept for a pair that must differ.
pub fn put_since(work: &mut [u16], i: usize, k: usize)
    requires { Large work.old × (i < most_differs) × (k < 65536) }
    ensures { work.new ≡ set work.old (since_region.at + i) k }
{
    work[SINCE + i] = k as u16;
}
