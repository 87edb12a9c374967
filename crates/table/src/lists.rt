// The list of a reason, and the scratch of its closure: labels and seats by tag, the chains of the buckets, and which joins were taken.

ghost use Rattle.std.specs.Prelude.{◌≡◌, ◌+◌, ◌≤◌, ◌<◌, set};
ghost use Rattle.meaning.specs.Limits.{most_records, most_tags};
ghost use Rattle.table.specs.Map.{list_of, label_of, saved_of, next_of, head_of, mark_of};
ghost use Rattle.table.specs.Places.{HEADS as heads_region, LABEL as label_region, LIST as list_region, Large, MARKS as marks_region, NEXT as next_region, SAVED as saved_region, head_count};

use crate::map::{HEADS, LABEL, LIST, MARKS, NEXT, SAVED};
use meaning::{RecordNo, Tag};

// The record number at a place of the list.
pub fn listed(work: &[u16], i: usize) -> RecordNo
    requires { Large work.now × (i < most_records) }
    ensures { result.0 ≡ list_of work.now i }
{
    RecordNo::of(work[LIST + i])
}

// A record number comes to a place of the list.
pub fn put_listed(work: &mut [u16], i: usize, r: RecordNo)
    requires { Large work.old × (i < most_records) }
    ensures { work.new ≡ set work.old (list_region.at + i) r.0 }
{
    work[LIST + i] = r.number();
}

// The label of a tag.
pub fn label(work: &[u16], x: Tag) -> Tag
    requires { Large work.now × (x.0 < most_tags) }
    ensures { result.0 ≡ label_of work.now x.0 }
{
    Tag::of(work[LABEL + x.place()])
}

// A tag gets a label.
pub fn put_label(work: &mut [u16], x: Tag, l: Tag)
    requires { Large work.old × (x.0 < most_tags) }
    ensures { work.new ≡ set work.old (label_region.at + x.0) l.0 }
{
    work[LABEL + x.place()] = l.number();
}

// The seat of a label: who leads the tags that have it. It stands in the region of the saved labels.
pub fn seat(work: &[u16], x: Tag) -> Tag
    requires { Large work.now × (x.0 < most_tags) }
    ensures { result.0 ≡ saved_of work.now x.0 }
{
    Tag::of(work[SAVED + x.place()])
}

// A label gets a seat.
pub fn put_seat(work: &mut [u16], x: Tag, l: Tag)
    requires { Large work.old × (x.0 < most_tags) }
    ensures { work.new ≡ set work.old (saved_region.at + x.0) l.0 }
{
    work[SAVED + x.place()] = l.number();
}

// One more than the next place of a chain, or 0.
pub fn next(work: &[u16], i: usize) -> usize
    requires { Large work.now × (i < most_records) }
    ensures { result ≡ next_of work.now i }
{
    usize::from(work[NEXT + i])
}

// A place of the list leads on to another: p is one more than that, or 0.
pub fn put_next(work: &mut [u16], i: usize, p: usize)
    requires { Large work.old × (i < most_records) × (p ≤ most_records) }
    ensures { work.new ≡ set work.old (next_region.at + i) p }
{
    work[NEXT + i] = p as u16;
}

// One more than the first place of a chain, or 0.
pub fn head(work: &[u16], i: usize) -> usize
    requires { Large work.now × (i < head_count) }
    ensures { result ≡ head_of work.now i }
{
    usize::from(work[HEADS + i])
}

// A bucket's chain begins at a place: p is one more than that, or 0.
pub fn put_head(work: &mut [u16], i: usize, p: usize)
    requires { Large work.old × (i < head_count) × (p ≤ most_records) }
    ensures { work.new ≡ set work.old (heads_region.at + i) p }
{
    work[HEADS + i] = p as u16;
}

// 1 where a join is taken into a reason.
pub fn mark(work: &[u16], i: usize) -> u16
    requires { Large work.now × (i < most_tags) }
    ensures { result ≡ mark_of work.now i }
{
    work[MARKS + i]
}

// A join is taken into a reason.
pub fn put_mark(work: &mut [u16], i: usize)
    requires { Large work.old × (i < most_tags) }
    ensures { work.new ≡ set work.old (marks_region.at + i) 1 }
{
    work[MARKS + i] = 1;
}
