// Classes of tags, joined and parted again: flat labels, the tags of a class in a ring, a trail of the labels that went. Document 01, "Reasons". Rests on
// list_ways, for what joins of rings mean, and on table.
#![tactic(auto)]

ghost use Rattle.std.specs.Prelude.{suc, ◌≤◌, ◌<◌};
ghost use Rattle.meaning.specs.Limits.{most_tags};
ghost use Rattle.table.specs.Map.{label_of, Within};
ghost use Rattle.table.specs.Places.{Large, WEIGHT, all_of};
ghost use Rattle.list_ways.specs.Rings.{Apart};
ghost use Rattle.list_rings.specs.Links.{Standing, Ringed, Named, Exchanged, Lone, Scattered, Linked, Unlinked, Returned};

use meaning::Tag;

// The ring of x is labelled v.
fn name(work: &mut [u16], x: Tag, v: Tag)
    requires { Ringed work.old x.0 }
    ensures { Named work.old work.new x.0 v.0 }
{
    let mut z = table::member(work, x);
    while z != x {
        table::put_label(work, z, v);
        z = table::member(work, z);
    }
    table::put_label(work, x, v);
}

// The tags after x and y are exchanged.
fn swap(work: &mut [u16], x: Tag, y: Tag)
    requires { Large work.old × (x.0 < most_tags) × (y.0 < most_tags) }
    ensures { Exchanged work.old work.new x.0 y.0 }
{
    let k = table::member(work, x);
    let l = table::member(work, y);
    table::put_member(work, y, k);
    table::put_member(work, x, l);
}

// The rings of x and y become one, and the class of y as heavy as both.
fn merge(work: &mut [u16], x: Tag, y: Tag)
    requires { Large work.old × (x.0 < most_tags) × (y.0 < most_tags) }
    ensures { Exchanged work.old work.new x.0 y.0 }
{
    swap(work, x, y);
    let a = table::weight(work, x);
    let b = table::weight(work, y);
    table::put_weight(work, y, a + b);
}

// They become two again.
fn split(work: &mut [u16], x: Tag, y: Tag)
    requires { Large work.old × (x.0 < most_tags) × (y.0 < most_tags) }
    ensures { Exchanged work.old work.new x.0 y.0 }
{
    swap(work, x, y);
    let a = table::weight(work, x);
    let b = table::weight(work, y);
    table::put_weight(work, y, b + 65536 - a);
}

// Whether the class of x is no heavier than that of y. Any answer is right.
pub fn lighter(work: &[u16], x: Tag, y: Tag) -> bool
    requires { Large work.now × (x.0 < most_tags) × (y.0 < most_tags) }
{
    table::weight(work, x) <= table::weight(work, y)
}

// The class of a tag is heavier by one.
pub fn burden(work: &mut [u16], x: Tag)
    requires { Large work.old × (x.0 < most_tags) }
    ensures { Within (all_of WEIGHT) work.old work.new }
{
    let a = table::weight(work, x);
    table::put_weight(work, x, a + 1);
}

// A tag is a class of its own.
fn part_off(work: &mut [u16], x: Tag)
    requires { Large work.old × (x.0 < most_tags) }
    ensures { Lone work.old work.new x.0 }
{
    table::put_member(work, x, x);
    table::put_weight(work, x, 1);
    table::put_label(work, x, x);
}

// Each tag is.
pub fn scatter(work: &mut [u16])
    requires { Large work.old }
    ensures { Scattered work.old work.new }
{
    for x in 0..meaning::MOST_TAGS {
        part_off(work, table::tag_at(x));
    }
}

// The class of x goes into that of y, as join number k.
pub fn join(work: &mut [u16], x: Tag, y: Tag, k: usize)
    requires { Standing work.old k × Apart most_tags (label_of work.old) x.0 y.0 }
    ensures { Linked work.old work.new x.0 y.0 k }
{
    name(work, x, y);
    merge(work, x, y);
    table::put_trail(work, k, x);
}

// Join number j, the last one, is taken back.
fn part(work: &mut [u16], j: usize)
    requires { Standing work.old (suc j) }
    ensures { Unlinked work.old work.new j }
{
    let x = table::trail(work, j);
    let y = table::label(work, x);
    split(work, x, y);
    name(work, x, x);
}

// All joins from number k on are, of j that were made.
pub fn back(work: &mut [u16], k: usize, j: usize)
    requires { Standing work.old j × (k ≤ j) }
    ensures { Returned work.old work.new k j }
{
    for i in (k..j).rev() {
        part(work, i);
    }
}
