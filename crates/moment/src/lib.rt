// A question at its moment: when two tags came together and who led them, by the links that the closure left, and what those who answer a question and
// those who test an answer have in common. Document 01, "Reasons" and "The job and the report". Rests on meaning and table.
#![tactic(auto)]

ghost use Rattle.std.specs.Prelude.{◌≡◌, ◌≢◌, ℕ, ◌≤◌, ◌<◌, length};
ghost use Rattle.meaning.specs.Limits.{most_tags};
ghost use Rattle.table.specs.Map.{when_of};
ghost use Rattle.table.specs.Past.{age_by};
ghost use Rattle.table.specs.Places.{Large};
ghost use Rattle.moment.specs.Meeting.{leader_at, Forested, MetAs};
ghost use Rattle.moment.specs.Deep.{Compared, Deeper, Raised, Paired, MetBefore, Ended};

use meaning::Tag;

// When two tags came together, and who led them: the links are climbed, to a leader by their ages, from two tags by their depths.

// The number of the record at which a join was made.
pub fn made(work: &[u16], a: usize) -> usize
    requires { Large work.now × (a < most_tags) }
    ensures { result ≡ when_of work.now a }
{
    let k = table::when(work, a);
    table::record_place(k)
}

// How many of the joins had been made once record `before` was in.
pub fn age_after(work: &[u16], joins: usize, before: usize) -> usize
    requires { Large work.now × (joins ≤ most_tags) }
    ensures { result ≡ age_by work.now joins before }
{
    let mut n: usize = 0;
    for a in 0..joins {
        if made(work, a) <= before {
            n += 1;
        }
    }
    n
}

// The leader of x by the links older than `age`.
pub fn leader(work: &[u16], age: usize, x: Tag) -> Tag
    requires forested { Forested work.now }
    requires age_le_most_tags { (age ≤ most_tags) × (x.0 < most_tags) }
    ensures { result.0 ≡ leader_at work.now age x.0 }
{
    let mut y = x;
    while table::age(work, y) < age {
        y = table::parent(work, y);
    }
    y
}

// The depths of two tags, held to each other: both climb, link by link, until one has no link older than `top` left. What the other has left
// is by how much it is deeper. Where the two climbs stand.
fn climb_abreast(work: &[u16], top: usize, s: Tag, t: Tag) -> (Tag, Tag)
    requires forested { Forested work.now }
    requires top_le_most_tags { (top ≤ most_tags) × (s.0 < most_tags) × (t.0 < most_tags) }
    ensures { Compared work.now top s.0 t.0 result.0.0 result.1.0 }
{
    let mut x = s;
    let mut y = t;
    while table::age(work, x) < top {
        if table::age(work, y) >= top {
            return (x, y);
        }
        x = table::parent(work, x);
        y = table::parent(work, y);
    }
    (x, y)
}

// Where a climb stands, and the age of the last link it took, or 0.
#[derive(Clone, Copy)]
pub struct Climb {
    pub at: Tag,
    pub newest: usize,
}

// Lifts a tag by as many links as another has left.
fn lift(work: &[u16], top: usize, s: Tag, left: Tag) -> Climb
    requires forested { Forested work.now }
    requires top_le_most_tags { (top ≤ most_tags) × (s.0 < most_tags) × (left.0 < most_tags) × Deeper work.now top s.0 left.0 }
    ensures { Raised work.now top s.0 left.0 result.at.0 result.newest }
{
    let mut y = left;
    let mut x = s;
    let mut newest: usize = 0;
    while table::age(work, y) < top {
        y = table::parent(work, y);
        newest = table::age(work, x);
        x = table::parent(work, x);
    }
    Climb { at: x, newest }
}

// Two climbs that stand at one depth go on together until they meet: the age of the newest link on the way, or `top` where they do not meet.
fn together(work: &[u16], top: usize, from: Tag, to: Tag, last: usize) -> usize
    requires forested { Forested work.now }
    requires top_le_most_tags { (top ≤ most_tags) × Paired work.now top from.0 to.0 last }
    ensures { Ended work.now top from.0 to.0 last result }
{
    let mut x = from;
    let mut y = to;
    let mut newest = last;
    while x != y {
        let a = table::age(work, x);
        let b = table::age(work, y);
        if a >= top {
            return top;
        }
        newest = a.max(b);
        x = table::parent(work, x);
        y = table::parent(work, y);
    }
    newest
}

// The age of the newest join between two tags among those older than `top`, or `top` where none of these brought them together: the deeper
// of the two is lifted to the depth of the other, then both climb until they meet. It needs no marks. `top` and no Option: who asks below an age
// knows that there is one, and would have a branch for none that it cannot take.
pub fn met_before(work: &[u16], top: usize, s: Tag, t: Tag) -> usize
    requires forested { Forested work.now }
    requires top_le_most_tags { (top ≤ most_tags) × (s.0 < most_tags) × (t.0 < most_tags) × (s.0 ≢ t.0) }
    ensures { MetBefore work.now top s.0 t.0 result }
{
    let (x, y) = climb_abreast(work, top, s, t);
    let a = lift(work, top, s, x);
    let b = lift(work, top, t, y);
    let last = a.newest.max(b.newest);
    together(work, top, a.at, b.at, last)
}

// The age of the newest join between two tags, if a join brought them together.
pub fn met(work: &[u16], s: Tag, t: Tag) -> Option<usize>
    requires forested { Forested work.now }
    requires s_lt_most_tags { (s.0 < most_tags) × (t.0 < most_tags) × (s.0 ≢ t.0) }
    ensures { MetAs work.now s.0 t.0 result }
{
    let b = met_before(work, meaning::MOST_TAGS, s, t);
    if b < meaning::MOST_TAGS {
        Some(b)
    } else {
        None
    }
}

// What is asked.

// What is asked about: N tags, of which those from `unit` up are units, whether records have sheets, so many records, and the joins they led to.
#[derive(Clone, Copy)]
pub struct Closed {
    pub size: usize,
    pub unit: usize,
    pub sheeted: bool,
    pub len: usize,
    pub joins: usize,
}

// A question at its moment: N and U and the edition, the numbers of all records and of all joins, the records before it, and its two tags.
#[derive(Clone, Copy)]
pub struct Question {
    pub size: usize,
    pub unit: usize,
    pub sheeted: bool,
    pub len: usize,
    pub joins: usize,
    pub before: usize,
    pub s: Tag,
    pub t: Tag,
}
