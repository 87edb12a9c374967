// All records of a job are closed, one after the other, and every join is kept. Document 01, "Tags, records, following" and "Reasons", and document 02, No. 6, on idle records; the closure of source document 002, with its
// lists of uses. Rests on meaning (what follows, the log of joins, the forest of links), table (where things stand), table_labels (labels, keys), all_index (filed applications, and those that wait), all_join (joins)
// and all_settle (what waits is met).
//
// A tag's label is a tag of its class, and at first each tag is its own. A record comes in: an equation joins its two tags, an application goes into its arguments' lists and waits. Those that wait
// are met, one after the other, until none does; then all records so far hold, and the next comes in.
#![tactic(auto)]

ghost use Rattle.std.specs.Prelude.{◌≡◌, true, false, ◌≤◌, ◌<◌, length, ◌↔◌};
ghost use Rattle.table.specs.Map.{Loaded};
ghost use Rattle.table.specs.Places.{Large};
ghost use Rattle.table_labels.specs.Chain.{as_link};
ghost use Rattle.all_index.specs.State.{eqn_at};
ghost use Rattle.all_close.specs.Closing.{Closing};
ghost use Rattle.all_close.specs.State.{Between, Coming, Looked, Again, Entered, Equated, Admitted, Wiped, Unlinked, Begun};

use all_index::Front;
use all_join::Grounds;
use all_settle::Progress;
use meaning::NO_RECORD;

// What a run of the closure found: the joins it made, and how many records are idle.
#[derive(Clone, Copy)]
pub struct Totals {
    pub joins: usize,
    pub idle: usize,
}

// A record that came in: the joins there are after it, and whether it is idle.
#[derive(Clone, Copy)]
struct Came {
    joins: usize,
    idle: bool,
}

// The application at place i comes in: it waits, and its arguments' lists know it.
fn enter(work: &mut [u16], front: Front, i: usize, joins: usize)
    requires { Coming front work.old i joins × (eqn_at work.old i ≡ false) }
    ensures { Entered front work.old i joins work.new }
{
    let r = all_index::number(i);
    let a = table::left(work, r);
    let b = table::right(work, r);
    let p = table::last_use(work, false, a);
    table::put_use(work, false, a, i, p);
    let q = table::last_use(work, true, b);
    table::put_use(work, true, b, i, q);
    table::put_wait(work, i, 0);
}

// The equation at place i comes in: its two tags are joined unless they have one label. Both labels are read as one number.
fn equate(work: &mut [u16], front: Front, i: usize, joins: usize) -> Progress
    requires { Coming front work.old i joins × (eqn_at work.old i ≡ true) }
    ensures { Equated front work.old i joins work.new result.joins result.first }
{
    let r = all_index::number(i);
    table::put_chain(work, i, 0);
    let x = table_labels::key(work, r);
    let a = table::tag_at(x / 65536);
    let b = table::tag_at(x % 65536);
    if a == b {
        return Progress {
            joins: joins,
            first: 0,
        };
    }
    let grounds = Grounds {
        one: r,
        other: NO_RECORD,
    };
    let first = all_join::join(work, front, joins, 0, grounds, a, b);
    Progress {
        joins: joins + 1,
        first: first,
    }
}

// Whether the application at place i, which is to come in, is idle: p is what the chains have for its arguments' labels, and has its result's label.
fn again(work: &[u16], front: Front, p: Option<usize>, i: usize) -> bool
    requires { Looked front work.now i (as_link p) }
    ensures { (result ≡ true) ↔ Again work.now i }
{
    match p {
        None => false,
        Some(p) => {
            let c = all_settle::outcome(work, all_index::number(p));
            let d = all_settle::outcome(work, all_index::number(i));
            c == d
        }
    }
}

// The application at place i comes in, and what waits then is met. It is looked up once, before it is in: that tells whether it is idle, and where it goes.
fn admit_application(work: &mut [u16], front: Front, i: usize, joins: usize) -> Came
    requires { Coming front work.old i joins × (eqn_at work.old i ≡ false) }
    ensures { Admitted front.size front.len i work.old joins work.new result.joins result.idle }
{
    let x = table_labels::key(work, all_index::number(i));
    let before = Front { places: i, ..front };
    let p = all_settle::look_up(work, before, x);
    let idle = again(work, front, p, i);
    enter(work, front, i, joins);
    let q = all_settle::resolve(work, front, x, p, i, joins);
    let after = all_settle::settle(work, front, q.joins, q.first);
    Came { joins: after, idle }
}

// The equation at place i comes in, and what waits then is met. It is idle if it made no join itself.
fn admit_equation(work: &mut [u16], front: Front, i: usize, joins: usize) -> Came
    requires { Coming front work.old i joins × (eqn_at work.old i ≡ true) }
    ensures { Admitted front.size front.len i work.old joins work.new result.joins result.idle }
{
    let q = equate(work, front, i, joins);
    let idle = q.joins == joins;
    let after = all_settle::settle(work, front, q.joins, q.first);
    Came { joins: after, idle }
}

// Record number i + 1 comes in, where all records before it hold.
fn admit(work: &mut [u16], front: Front, i: usize, joins: usize) -> Came
    requires { Coming front work.old i joins }
    ensures { Admitted front.size front.len i work.old joins work.new result.joins result.idle }
{
    if table::is_equation(work, all_index::number(i)) {
        return admit_equation(work, front, i, joins);
    }
    admit_application(work, front, i, joins)
}

// No tag is linked.
fn unlink(work: &mut [u16])
    requires { Large work.old }
    ensures { Unlinked work.old work.new }
{
    work[table::AGE..table::FIRST].fill(table::LEADS);
}

// Behind the records' columns nothing is left of what was lent.
fn wipe(work: &mut [u16])
    requires { Large work.old }
    ensures { Wiped work.old work.new }
{
    work[table::PARENT..table::NAMED].fill(0);
}

// The work begins: behind the columns all is cleared before anything else is written there; then no tag is linked, each is its own label, and there
// are no chains and no uses.
fn begin(work: &mut [u16])
    requires { Large work.old }
    ensures { Begun work.old work.new }
{
    wipe(work);
    unlink(work);
    table_labels::count_up(&mut work[table::PARENT..table::AGE]);
    table_labels::fresh(work);
    work[table::CHAIN..table::NAMED].fill(0);
}

// Closes records 1 to len of `size` tags, one after the other, and keeps the joins.
pub fn close(work: &mut [u16], size: usize, len: usize) -> Totals
    requires { Loaded size len work.old }
    ensures { Closing size len work.old work.new result.joins result.idle }
{
    begin(work);
    let mut joins = 0;
    let mut idle = 0;
    for i in 0..len {
        let front = Front {
            size,
            len,
            places: i + 1,
        };
        let r = admit(work, front, i, joins);
        if r.idle {
            idle += 1;
        }
        joins = r.joins;
    }
    Totals { joins, idle }
}
