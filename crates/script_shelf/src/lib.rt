// The work table while a script is read: the only place that knows where in it anything stands then. Document 02, No. 4.
#![tactic(auto)]

ghost use Rattle.std.specs.Prelude.{◌≡◌, ℕ, ◌+◌, ◌≤◌, ◌<◌, length, get_or, set};
ghost use Rattle.script_shelf.specs.Columns.{note_in, file_in, mark_in};
ghost use Rattle.script_shelf.specs.Shelf.{kind_of, first_of, second_of, third_of};
ghost use Rattle.script_shelf.specs.Items.{item_of};
ghost use Rattle.script_shelf.specs.Search.{Linked, Sought};

mod refusal;

pub use refusal::{Fault, Refusal};

pub const FROM: usize = 0;

pub const TO: usize = 1001;

pub const TAKES: usize = 2002;

pub const NAMED: usize = 3003;

pub const NAMES: usize = 4004;

pub const LEFT: usize = 4513;

pub const RIGHT: usize = 5514;

pub const FILED: usize = 6515;

pub const FILES: usize = 7516;

pub const KIND: usize = 8025;

pub const FIRST: usize = 13526;

pub const SECOND: usize = 19027;

pub const THIRD: usize = 24528;

// A field of the job by its tags: the 01 of an equality, the 02 of a part, the 05 of a negated equality, the 06 of a check-sat.
#[derive(Clone, Copy, Debug, PartialEq, Eq)]
pub enum Field {
    Equal(u16, u16),
    Applied(u16, u16, u16),
    Differing(u16, u16),
    Check,
}

// How many keys there are, by which names and parts are filed.
pub const KEYS: usize = 509;

// How many of each there are in the table.
#[derive(Clone, Copy, Debug, PartialEq, Eq)]
pub struct Counts {
    pub symbols: u16,
    pub parts: u16,
    pub records: u16,
    pub differs: u16,
    pub checks: u16,
    pub fields: u16,
}

// The number that stands at a place of a column.
pub fn cell(work: &[u16], column: usize, i: usize) -> u16
    requires { (32768 ≤ length work.now) × (column + i < 32768) }
    ensures { result ≡ get_or work.now (column + i) 0 }
{
    work[column + i]
}

// A number is stored there.
pub fn store(work: &mut [u16], column: usize, i: usize, v: u16)
    requires { (32768 ≤ length work.old) × (column + i < 32768) }
    ensures { work.new ≡ set work.old (column + i) v }
{
    work[column + i] = v;
}

// One more field, by its kind and its three numbers.
#[tactic(auto, unfolding(crate::specs::Columns::note_in))]
pub fn note(work: &mut [u16], n: u16, kind: u16, first: u16, second: u16, third: u16)
    requires { (32768 ≤ length work.old) × (n ≤ 5500) }
    ensures { work.new ≡ note_in work.old n kind first second third }
{
    let i = usize::from(n);
    store(work, KIND, i, kind);
    store(work, FIRST, i, first);
    store(work, SECOND, i, second);
    store(work, THIRD, i, third);
}

// One more field.
pub fn note_field(work: &mut [u16], n: u16, field: Field)
    requires { (32768 ≤ length work.old) × (n ≤ 5500) }
    ensures { work.new ≡ note_in work.old n (kind_of (item_of field)) (first_of (item_of field)) (second_of (item_of field)) (third_of (item_of field)) }
{
    match field {
        Field::Equal(a, b) => note(work, n, 1, a, b, 0),
        Field::Applied(a, b, c) => note(work, n, 2, a, b, c),
        Field::Differing(a, b) => note(work, n, 5, a, b, 0),
        Field::Check => note(work, n, 6, 0, 0, 0),
    }
}

// One more part, with its key; `head` is the part before it with the same key.
#[tactic(auto, unfolding(crate::specs::Columns::file_in))]
pub fn file(work: &mut [u16], n: u16, left: u16, right: u16, key: usize, head: u16)
    requires { (32768 ≤ length work.old) × (n ≤ 1000) × (key < 509) }
    ensures { work.new ≡ file_in work.old n left right key head }
{
    let i = usize::from(n);
    store(work, LEFT, i, left);
    store(work, RIGHT, i, right);
    store(work, FILED, i, head);
    store(work, FILES, key, n + 1);
}

// One more symbol.
#[tactic(auto, unfolding(crate::specs::Columns::mark_in))]
pub fn mark(work: &mut [u16], n: u16, from: u16, to: u16, takes: u16, key: usize, head: u16)
    requires { (32768 ≤ length work.old) × (n ≤ 1000) × (key < 509) }
    ensures { work.new ≡ mark_in work.old n from to takes key head }
{
    let i = usize::from(n);
    store(work, FROM, i, from);
    store(work, TO, i, to);
    store(work, TAKES, i, takes);
    store(work, NAMED, i, head);
    store(work, NAMES, key, n + 1);
}

// The last thing on a chain that passes a test; `head` begins the chain, and a column holds its links: each is one more than a thing's number, or 0. n things are filed.
pub fn seek<F: Fn(usize) -> bool>(
    work: &[u16],
    links: usize,
    n: usize,
    head: usize,
    passes: F,
) -> Option<usize>
    requires { Linked work.now links n head (λ k. F.pre passes k) }
    ensures { Sought work.now links n head (λ k r. F.post passes k r) result }
{
    let mut link = head;
    while link != 0 {
        let k = link - 1;
        if passes(k) {
            return Some(k);
        }
        link = usize::from(cell(work, links, k));
    }
    None
}
