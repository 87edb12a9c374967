// The closure of all records as passes, so many as are asked for. Document 02, No. 12. The labels stay as they are during a pass; an application is
// looked up by them, and what is joined are the labels to come. Rests on slow_passes (what a pass is), table and slow_chain.
#![tactic(auto)]

ghost use Rattle.std.specs.Prelude.{◌≡◌, true, false, suc, ◌≤◌, ◌<◌};
ghost use Rattle.meaning.specs.Labels.{Labels};
ghost use Rattle.meaning.specs.Limits.{most_tags};
ghost use Rattle.table.specs.Map.{label_of, saved_of, Loaded};
ghost use Rattle.table.specs.Places.{Large};
ghost use Rattle.table_labels.specs.Parts.{Own};
ghost use Rattle.slow_chain.specs.Places.{eqn_of};
ghost use Rattle.slow_close.specs.Closing.{NewMet, Stepping, Unifying, Stepped, Frozen, PassDone, Turned, Advanced};

use meaning::{RecordNo, Tag};
use slow_chain::number;

// Which pass is made: of so many tags and records, when so many passes have been.
#[derive(Clone, Copy)]
pub struct Round {
    pub size: usize,
    pub len: usize,
    pub done: usize,
}

// Two tags get one label to come. Whether they had two.
fn meet_new(work: &mut [u16], size: usize, s: Tag, t: Tag) -> bool
    requires { Large work.old × (size ≤ most_tags) × (s.0 < size) × (t.0 < size) × Labels (saved_of work.old) × Own size (saved_of work.old) }
    ensures { NewMet work.old work.new size s.0 t.0 result }
{
    let a = table::seat(work, s);
    let b = table::seat(work, t);
    if a == b {
        return false;
    }
    if a < b {
        slow_chain::merge(work, size, a, b);
    } else {
        slow_chain::merge(work, size, b, a);
    }
    true
}

// The equation r at place i is met. Whether it joined two labels to come.
fn equate(work: &mut [u16], round: Round, r: RecordNo, i: usize) -> bool
    requires { Stepping round.size round.len round.done work.old i × (eqn_of work.old i ≡ true) × (r.0 ≡ suc i) }
    ensures { Stepped round.size round.len round.done work.old i work.new result }
{
    let s = table::left(work, r);
    let t = table::right(work, r);
    meet_new(work, round.size, s, t)
}

// The application at place i meets the one at place p.
fn unify(work: &mut [u16], round: Round, p: usize, i: usize) -> bool
    requires { Unifying round.size round.len round.done work.old (suc p) i }
    ensures { Stepped round.size round.len round.done work.old i work.new result }
{
    let q = number(p);
    let r = number(i);
    let s = table::result(work, q);
    let t = table::result(work, r);
    meet_new(work, round.size, s, t)
}

// The application at place i is looked up by its arguments' labels, and goes into the chains where none is found.
fn apply(work: &mut [u16], round: Round, i: usize) -> bool
    requires { Stepping round.size round.len round.done work.old i × (eqn_of work.old i ≡ false) }
    ensures { Stepped round.size round.len round.done work.old i work.new result }
{
    let f = slow_chain::find(work, round.size, round.len, i);
    match f.place {
        Some(p) => unify(work, round, p, i),
        None => {
            slow_chain::insert(work, f.bucket, i);
            false
        }
    }
}

// The record at place i is met.
fn step(work: &mut [u16], round: Round, i: usize) -> bool
    requires { Stepping round.size round.len round.done work.old i }
    ensures { Stepped round.size round.len round.done work.old i work.new result }
{
    let r = number(i);
    if table::is_equation(work, r) {
        equate(work, round, r, i)
    } else {
        apply(work, round, i)
    }
}

// One pass over all records. Whether it changed something.
fn pass(work: &mut [u16], round: Round) -> bool
    requires { Frozen round.size round.len round.done work.old × (saved_of work.old ≡ label_of work.old) }
    ensures { PassDone round.size round.len round.done work.old work.new result }
{
    slow_chain::clear(work);
    let mut joined = false;
    for i in 0..round.len {
        if step(work, round, i) {
            joined = true;
        }
    }
    joined
}

// One pass, after which the labels to come are the labels. Whether it changed something.
fn turn(work: &mut [u16], round: Round) -> bool
    requires { Frozen round.size round.len round.done work.old }
    ensures { Turned round.size round.len round.done work.old work.new result }
{
    slow_chain::save(work);
    let joined = pass(work, round);
    slow_chain::restore(work);
    joined
}

// Makes passes over records 1 to len of `size` tags, from single classes, until one changes nothing or `most` have changed something. How many changed something.
pub fn advance(work: &mut [u16], size: usize, len: usize, most: usize) -> usize
    requires { Loaded size len work.old }
    ensures { Advanced size len most work.old work.new result }
{
    table_labels::fresh(work);
    for done in 0..most {
        if !turn(work, Round { size, len, done }) {
            return done;
        }
    }
    most
}
