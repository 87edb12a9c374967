// A part is met: it is found by its halves' numbers, or filed, and its field is noted. Document 02, No. 4: "one for each distinct compound part".
#![tactic(auto)]

ghost use Rattle.std.specs.Prelude.{◌≡◌, ℕ, ◌+◌, ◌≤◌, ◌<◌, length, MatchOption};
ghost use Rattle.script_parts.specs.Pairs.{key_of, fitting, pair_in, Shelved, Ready, Put};
ghost use Rattle.script_parts.specs.Meet.{Meets};

use script_shelf::{Counts, Field, cell, file, note_field, seek};

// A part's number, and the counts with it.
#[derive(Clone, Copy, Debug, PartialEq, Eq)]
pub struct Numbered {
    pub number: u16,
    pub counts: Counts,
}

fn key_of(a: u16, b: u16) -> usize
    ensures { (result ≡ key_of a b) × (result < 509) }
{
    (31 * usize::from(a) + usize::from(b)) % 509
}

// Whether part k has these halves.
#[tactic(auto, unfolding(crate::specs::Pairs::fitting))]
fn holds(work: &[u16], k: usize, a: u16, b: u16) -> bool
    requires { (32768 ≤ length work.now) × (k < 1001) }
    ensures { result ≡ fitting work.now a b k }
{
    cell(work, script_shelf::LEFT, k) == a && cell(work, script_shelf::RIGHT, k) == b
}

// The part with these halves, among n that are filed; `head` begins the chain of their key.
fn find(work: &[u16], n: usize, a: u16, b: u16, head: usize) -> Option<usize>
    requires { Shelved work.now n a b head }
    ensures { MatchOption result (pair_in work.now a b n ≡ 0) (λ k. (pair_in work.now a b n ≡ k + 1) × (k < n)) }
{
    seek(work, script_shelf::FILED, n, head, |k| {
        holds(work, k, a, b)
    })
}

// A new part is filed and noted.
fn put(work: &mut [u16], counts: Counts, a: u16, b: u16, key: usize, head: u16) -> Counts
    requires { (32768 ≤ length work.old) × (counts.parts ≤ 1000) × (counts.fields ≤ 5500) × (counts.records ≤ 4000) × (key < 509) }
    ensures { Put work.old work.new counts result a b key head }
{
    file(work, counts.parts, a, b, key, head);
    note_field(
        work,
        counts.fields,
        Field::Applied(a, b, 1001 + counts.parts),
    );
    Counts {
        parts: counts.parts + 1,
        records: counts.records + 1,
        fields: counts.fields + 1,
        ..counts
    }
}

// The part with the halves a and b.
pub fn meet(work: &mut [u16], counts: Counts, a: u16, b: u16) -> Numbered
    requires { Ready work.old counts a b }
    ensures { Meets work.old work.new counts result.counts a b result.number }
{
    let n = usize::from(counts.parts);
    let key = key_of(a, b);
    let head = cell(work, script_shelf::FILES, key);
    if let Some(k) = find(work, n, a, b, usize::from(head)) {
        return Numbered {
            number: (1001 + k) as u16,
            counts,
        };
    }
    Numbered {
        number: 1001 + counts.parts,
        counts: put(work, counts, a, b, key, head),
    }
}
