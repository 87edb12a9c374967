// The steps that commands are made of: a token that is asked for, sorts, a new name. Document 02, No. 4. Rests on script_words, script_names, script_heads.
#![tactic(auto)]

ghost use Rattle.std.specs.Prelude.{ℕ, ◌≤◌, T, length};
ghost use Rattle.script_tokens.specs.Kinds.{number};
ghost use Rattle.script_words.specs.Words.{Read};
ghost use Rattle.script_heads.specs.Names.{Readable};
ghost use Rattle.script_steps.specs.Steps.{askable, Wanted, SortRead, Sorted, NewNames};

use script_names::look_up;
use script_shelf::{Counts, Fault, Refusal};
use script_tokens::{Kind, Lexeme};
use script_words::{is_word, read_at};

// How many sorts there were, and the place behind the parenthesis that closes them.
#[derive(Clone, Copy, Debug, PartialEq, Eq)]
pub struct Count {
    pub number: u16,
    pub at: usize,
}

// The token of a number is next, or it is outside the subset.
pub fn want(script: &[u8], at: usize, kind: Kind) -> Result<Lexeme, Refusal>
    requires { (at ≤ length script.now) × T (askable (number kind)) }
    ensures { Wanted script.now at (number kind) result }
{
    let x = read_at(script, at);
    if x.kind == kind {
        return Ok(x);
    }
    Err(Refusal {
        fault: Fault::OutsideSubset,
        place: x.from,
    })
}

// Whether the token at hand is the declared sort, by its name.
fn sort_of(script: &[u8], sort: &[u8], at: usize, x: Lexeme) -> Result<Lexeme, Refusal>
    requires { Read script.now at (number x.kind) x.from x.to }
    ensures { SortRead script.now sort.now at result }
{
    if !x.kind.is_simple() {
        return Err(Refusal {
            fault: Fault::OutsideSubset,
            place: x.from,
        });
    }
    let name = &script[x.from..x.to];
    if is_word(name, script_words::BOOL) {
        return Err(Refusal {
            fault: Fault::OutsideSubset,
            place: x.from,
        });
    }
    if sort == name {
        return Ok(x);
    }
    Err(Refusal {
        fault: Fault::AgainstDeclarations,
        place: x.from,
    })
}

// The declared sort is next.
pub fn sort_at(script: &[u8], sort: &[u8], at: usize) -> Result<Lexeme, Refusal>
    requires { at ≤ length script.now }
    ensures { SortRead script.now sort.now at result }
{
    sort_of(script, sort, at, read_at(script, at))
}

// The argument sorts of a declare-fun, behind its opening parenthesis and up to the closing one.
pub fn sorts(script: &[u8], sort: &[u8], start: usize) -> Result<Count, Refusal>
    requires { (start ≤ length script.now) × (length script.now ≤ 60000) }
    ensures { Sorted script.now sort.now start result }
{
    let mut at = start;
    let mut number: u16 = 0;
    let mut x = read_at(script, at);
    while x.kind != Kind::Closing {
        at = sort_of(script, sort, at, x)?.to;
        number += 1;
        x = read_at(script, at);
    }
    Ok(Count { number, at: x.to })
}

// A function's name that is not declared yet.
pub fn new_name(script: &[u8], work: &[u16], counts: Counts, at: usize) -> Result<Lexeme, Refusal>
    requires { Readable script.now work.now counts at }
    ensures { NewNames script.now work.now counts at result }
{
    let x = read_at(script, at);
    if !x.kind.is_simple() {
        return Err(Refusal {
            fault: Fault::OutsideSubset,
            place: x.from,
        });
    }
    let Kind::Name = x.kind else {
        return Err(Refusal {
            fault: Fault::AgainstDeclarations,
            place: x.from,
        });
    };
    if let Some(_) = look_up(script, work, counts, x.from, x.to) {
        return Err(Refusal {
            fault: Fault::AgainstDeclarations,
            place: x.from,
        });
    }
    if 32 < x.to - x.from {
        return Err(Refusal {
            fault: Fault::AboveLimit,
            place: x.from,
        });
    }
    Ok(x)
}
