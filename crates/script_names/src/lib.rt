// Declared symbols: looked up by their names, which stand in the script itself, and declared. Document 02, No. 4.
#![tactic(auto)]

ghost use Rattle.std.specs.Prelude.{◌≡◌, ℕ, ◌+◌, ◌≤◌, ◌<◌, length, get_or, MatchOption, true, false};
ghost use Rattle.std.proofs.Math.Seq.{slice};
ghost use Rattle.script_shelf.specs.Shelf.{sum};
ghost use Rattle.script_names.specs.Names.{fitting, name_in, Shelved, Ready, Looks, Room, Declares};

use script_shelf::{Counts, cell, mark, seek};

// A declared symbol: its number and its number of arguments.
#[derive(Clone, Copy, Debug, PartialEq, Eq)]
pub struct Symbol {
    pub number: u16,
    pub takes: u16,
}

// The key of a name, from its last byte to its first.
fn key_of(script: &[u8], from: usize, to: usize) -> usize
    requires { (from ≤ to) × (to ≤ length script.now) }
    ensures { (result ≡ sum (slice from to script.now)) × (result < 509) }
{
    let mut key = 0;
    for i in (from..to).rev() {
        key = (usize::from(script[i]) + 31 * key) % 509;
    }
    key
}

// Whether symbol k has the name.
fn holds(script: &[u8], work: &[u16], k: usize, from: usize, to: usize) -> bool
    requires { (32768 ≤ length work.now) × (k < 1001) × (get_or work.now (0 + k) 0 ≤ get_or work.now (1001 + k) 0) × (get_or work.now (1001 + k) 0 ≤ length script.now) × (from ≤ to) × (to ≤ length script.now) }
    ensures { result ≡ fitting script.now work.now from to k }
{
    let a = usize::from(cell(work, script_shelf::FROM, k));
    let b = usize::from(cell(work, script_shelf::TO, k));
    script[a..b] == script[from..to]
}

// The symbol with the name, among n that are declared; `head` begins the chain of its key.
fn find(script: &[u8], work: &[u16], n: usize, from: usize, to: usize, head: usize) -> Option<usize>
    requires { Shelved script.now work.now n from to head }
    ensures { MatchOption result (name_in script.now work.now from to n ≡ 0) (λ k. (name_in script.now work.now from to n ≡ k + 1) × (k < n)) }
{
    seek(
        work,
        script_shelf::NAMED,
        n,
        head,
        |k| holds(script, work, k, from, to),
    )
}

// The symbol with the name that stands between two places of the script.
pub fn look_up(
    script: &[u8],
    work: &[u16],
    counts: Counts,
    from: usize,
    to: usize,
) -> Option<Symbol>
    requires { Ready script.now work.now counts from to }
    ensures { MatchOption result (Looks script.now work.now counts from to false 0 0) (λ x. Looks script.now work.now counts from to true x.number x.takes) }
{
    let n = usize::from(counts.symbols);
    let key = key_of(script, from, to);
    let head = cell(work, script_shelf::NAMES, key);
    let Some(k) = find(script, work, n, from, to, usize::from(head)) else {
        return None;
    };
    Some(Symbol {
        number: k as u16,
        takes: cell(work, script_shelf::TAKES, k),
    })
}

// The symbol with that name is declared.
pub fn declare(
    script: &[u8],
    work: &mut [u16],
    counts: Counts,
    from: usize,
    to: usize,
    takes: u16,
) -> Counts
    requires { Room script.now work.old counts from to }
    ensures { Declares script.now work.old work.new counts result from to takes }
{
    let key = key_of(script, from, to);
    let head = cell(work, script_shelf::NAMES, key);
    mark(
        work,
        counts.symbols,
        from as u16,
        to as u16,
        takes,
        key,
        head,
    );
    Counts {
        symbols: counts.symbols + 1,
        ..counts
    }
}
