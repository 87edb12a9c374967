// Labels: the loops that write them in the lent work table, the key by which an application is found, and the search of a chain for a key. Document 01, "Tags, records, following".
// Rests on meaning (labels) and table (where things stand).
#![tactic(auto)]

ghost use Rattle.std.specs.Prelude.{◌≡◌, ℕ, suc, map, ◌≤◌, ◌<◌, List, eqb, length};
ghost use Rattle.meaning.specs.Labels.{into};
ghost use Rattle.meaning.specs.Limits.{most_records, most_tags};
ghost use Rattle.table.specs.Map.{label_of};
ghost use Rattle.table.specs.Places.{Large};
ghost use Rattle.table_labels.specs.Chain.{as_link, hits, seek_to};
ghost use Rattle.table_labels.specs.Parts.{CountsUp, Followed, Fresh, Readable, key_in, place_key};

use meaning::{RecordNo, Tag};
use table::{LABEL, NEXT};

// The numbers become 0, 1, 2, ..
pub fn count_up(part: &mut [u16])
    requires { length part.old ≤ 65535 }
    ensures { CountsUp part.new }
{
    for (i, x) in part.iter_mut().enumerate() {
        *x = i as u16;
    }
}

// Every hi becomes lo. Written as a choice of values, so that it is compiled to vector code.
fn relabel(part: &mut [u16], hi: u16, lo: u16)
    ensures { part.new ≡ map (into lo hi) part.old }
{
    for x in part.iter_mut() {
        *x = if *x == hi { lo } else { *x };
    }
}

// The label hi becomes lo in a part of the labels.
pub fn rename(part: &mut [u16], hi: Tag, lo: Tag)
    ensures { part.new ≡ map (into lo.0 hi.0) part.old }
{
    relabel(part, hi.number(), lo.number());
}

// Each tag is its own label.
pub fn fresh(work: &mut [u16])
    requires { Large work.old }
    ensures { Fresh work.old work.new }
{
    count_up(&mut work[LABEL..NEXT]);
}

// Both argument labels of a record as one number.
pub fn key(work: &[u16], r: RecordNo) -> usize
    requires { Readable work.now r.0 }
    ensures { result ≡ key_in work.now r.0 }
{
    let a = table::left(work, r);
    let b = table::right(work, r);
    let x = table::label(work, a);
    let y = table::label(work, b);
    x.place() * 65536 + y.place()
}

// Whether two tags have one label.
pub fn level(work: &[u16], s: Tag, t: Tag) -> bool
    requires { Large work.now × (s.0 < most_tags) × (t.0 < most_tags) }
    ensures { result ≡ eqb (label_of work.now s.0) (label_of work.now t.0) }
{
    table::label(work, s) == table::label(work, t)
}

// The number of the record at a place.
pub fn number(j: usize) -> RecordNo
    requires { j < most_records }
    ensures { result.0 ≡ suc j }
{
    RecordNo::of((j + 1) as u16)
}

// How chains of places lead on: the closure of all records keeps some in the table, and a pass of the slow engine others.
pub trait Chains {
    ghost leads: { List ℕ → ℕ → ℕ };

    // One more than the next place, or 0.
    fn next(work: &[u16], j: usize) -> usize
        requires { Large work.now × (j < most_records) }
        ensures { result ≡ leads work.now j };
}

// The first place from a link on whose record has the key x.
pub fn seek<C: Chains>(work: &[u16], from: usize, x: usize) -> Option<usize>
    requires { Followed work.now (C.leads work.now) from }
    ensures { as_link result ≡ seek_to (C.leads work.now) (hits (place_key work.now) x) from }
{
    let mut p = from;
    while p != 0 {
        if key(work, number(p - 1)) == x {
            return Some(p - 1);
        }
        p = C::next(work, p - 1);
    }
    None
}
