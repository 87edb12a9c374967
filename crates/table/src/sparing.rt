// While spare records are taken out of a reason: its list, the rings and weights of the classes, the lists of uses, and what waits.

ghost use Rattle.std.specs.Prelude.{◌≡◌, ◌+◌, ◌≤◌, ◌<◌, set};
ghost use Rattle.meaning.specs.Limits.{most_tags};
ghost use Rattle.table.specs.Map.{place_of, member_of, trail_of, end_of, before_of, queue_of, Within};
ghost use Rattle.table.specs.Places.{Large, MEMBER as member_region, QUEUE as queue_region, TRAIL as trail_region, WEIGHT as weight_region, all_of, before_at, end_at, front_size};

use crate::map::{BEFORE, ENDS, LIST, MEMBER, PRIOR, QUEUE, TAILS, TRAIL, WEIGHT};
use meaning::{RecordNo, Tag};

// The record number at a place of the front of the list, or none where it was left out.
pub fn placed(work: &[u16], i: usize) -> RecordNo
    requires { Large work.now × (i < front_size) }
    ensures { result.0 ≡ place_of work.now i }
{
    RecordNo::of(work[LIST + i])
}

// The next tag of a tag's class.
pub fn member(work: &[u16], x: Tag) -> Tag
    requires { Large work.now × (x.0 < most_tags) }
    ensures { result.0 ≡ member_of work.now x.0 }
{
    Tag::of(work[MEMBER + x.place()])
}

pub fn put_member(work: &mut [u16], x: Tag, y: Tag)
    requires { Large work.old × (x.0 < most_tags) }
    ensures { work.new ≡ set work.old (member_region.at + x.0) y.0 }
{
    work[MEMBER + x.place()] = y.number();
}

// How heavy the class of a label is.
pub fn weight(work: &[u16], x: Tag) -> u32
    requires { Large work.now × (x.0 < most_tags) }
    ensures { result < 65536 }
{
    u32::from(work[WEIGHT + x.place()])
}

// It is so heavy now, modulo 65,536: any number is right.
pub fn put_weight(work: &mut [u16], x: Tag, v: u32)
    requires { Large work.old × (x.0 < most_tags) }
    ensures { Within (all_of weight_region) work.old work.new }
{
    work[WEIGHT + x.place()] = (v % 65536) as u16;
}

// The label that went with a join.
pub fn trail(work: &[u16], j: usize) -> Tag
    requires { Large work.now × (j < most_tags) }
    ensures { result.0 ≡ trail_of work.now j }
{
    Tag::of(work[TRAIL + j])
}

pub fn put_trail(work: &mut [u16], j: usize, x: Tag)
    requires { Large work.old × (j < most_tags) }
    ensures { work.new ≡ set work.old (trail_region.at + j) x.0 }
{
    work[TRAIL + j] = x.number();
}

// Where the lists of uses end, by tag, and lead back, by place.
fn ends(second: bool) -> usize
    ensures { result ≡ end_at second }
{
    if second { TAILS } else { ENDS }
}

fn befores(second: bool) -> usize
    ensures { result ≡ before_at second }
{
    if second { PRIOR } else { BEFORE }
}

// One more than the last place whose record has a tag for its first argument (or second), or 0.
pub fn last_place(work: &[u16], second: bool, x: Tag) -> usize
    requires { Large work.now × (x.0 < most_tags) }
    ensures { result ≡ end_of second work.now x.0 }
{
    usize::from(work[ends(second) + x.place()])
}

// The same of the places before one of them, for its tag.
pub fn place_before(work: &[u16], second: bool, i: usize) -> usize
    requires { Large work.now × (i < front_size) }
    ensures { result ≡ before_of second work.now i }
{
    usize::from(work[befores(second) + i])
}

// The record of place i is the last with the tag x for that argument, and before it is the one that was.
pub fn put_place(work: &mut [u16], second: bool, x: Tag, i: usize)
    requires { Large work.old × (x.0 < most_tags) × (i < front_size) }
    ensures { work.new ≡ set (set work.old (before_at second + i) (end_of second work.old x.0)) (end_at second + x.0) (i + 1) }
{
    let end = ends(second) + x.place();
    work[befores(second) + i] = work[end];
    work[end] = (i + 1) as u16;
}

// Whether a place is in, and whether it waits.
pub fn queued(work: &[u16], i: usize) -> usize
    requires { Large work.now × (i < front_size) }
    ensures { result ≡ queue_of work.now i }
{
    usize::from(work[QUEUE + i])
}

pub fn put_queued(work: &mut [u16], i: usize, v: usize)
    requires { Large work.old × (i < front_size) × (v ≤ front_size + 2) }
    ensures { work.new ≡ set work.old (queue_region.at + i) v }
{
    work[QUEUE + i] = v as u16;
}
