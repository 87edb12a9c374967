// Who leads a class at a question: its smallest unit, or its smallest tag where it has no unit. Document 02, No. 3. The links lead every tag to the smallest of its
// class; every tag is labelled by that, and the first unit with a label takes the label's seat. Rests on table and moment.
#![tactic(auto)]

ghost use Rattle.std.specs.Prelude.{◌≡◌, ℕ, ◌≤◌, ◌<◌};
ghost use Rattle.meaning.specs.Limits.{most_tags};
ghost use Rattle.table.specs.Map.{label_of};
ghost use Rattle.table.specs.Places.{Large};
ghost use Rattle.moment.specs.Meeting.{leader_at, Forested};
ghost use Rattle.leading.specs.Leading.{leader_in, Labelled, Scanned, Seatable, Seated, Leadable, Led, Leaders};

use meaning::Tag;
use moment::{age_after, leader};

// The smallest tag in the class of x by the links older than `age`, where all smaller tags are labelled by theirs.
fn next_label(work: &[u16], age: usize, x: Tag) -> Tag
    requires { Forested work.now × (age ≤ most_tags) × (x.0 < most_tags) × Labelled work.now work.now x.0 age }
    ensures { result.0 ≡ leader_at work.now age x.0 }
{
    if table::age(work, x) < age {
        return table::label(work, table::parent(work, x));
    }
    x
}

// Every tag is labelled by the smallest of its class, by the links older than `age`: a link leads down, so what it leads to is labelled before. Each tag
// sits on its own seat.
fn label_all(work: &mut [u16], size: usize, age: usize)
    requires { Forested work.old × (size ≤ most_tags) × (age ≤ most_tags) }
    ensures { Scanned work.old work.new size age }
{
    for i in 0..size {
        let x = table::tag_at(i);
        let l = next_label(work, age, x);
        table::put_label(work, x, l);
        table::put_seat(work, x, x);
    }
}

// Every label has the first unit with it for its seat, or itself where no unit has it. The units are gone through from the last to the first.
pub fn seat_units(work: &mut [u16], size: usize, unit: usize)
    requires { Seatable work.old size unit }
    ensures { Seated work.old work.new size unit }
{
    for i in (unit..size).rev() {
        let x = table::tag_at(i);
        let l = table::label(work, x);
        table::put_seat(work, l, x);
    }
}

// Every tag gets its leader by the first `before` records: the seat of its label.
pub fn lead(work: &mut [u16], size: usize, unit: usize, joins: usize, before: usize)
    requires { Leadable work.old size unit joins }
    ensures { Led work.old work.new size unit joins before }
{
    let age = age_after(work, joins, before);
    label_all(work, size, age);
    seat_units(work, size, unit);
}

// The leader of a tag, where every tag has got its leader.
pub fn leader_of(work: &[u16], x: Tag) -> Tag
    requires { Large work.now × (x.0 < most_tags) × (label_of work.now x.0 < most_tags) }
    ensures { result.0 ≡ leader_in work.now x.0 }
{
    table::seat(work, table::label(work, x))
}

// The leaders of two tags by the first `before` records. Where no tag is a unit the links tell them, and nothing is written.
pub fn leaders(
    work: &mut [u16],
    size: usize,
    unit: usize,
    joins: usize,
    before: usize,
    s: Tag,
    t: Tag,
) -> (Tag, Tag)
    requires { Leadable work.old size unit joins × (s.0 < size) × (t.0 < size) }
    ensures { Leaders work.old work.new size unit joins before s.0 t.0 result.0.0 result.1.0 }
{
    if unit < size {
        lead(work, size, unit, joins, before);
        return (leader_of(work, s), leader_of(work, t));
    }
    let age = age_after(work, joins, before);
    (leader(work, age, s), leader(work, age, t))
}
