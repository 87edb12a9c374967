// The whole script into the work table. Document 02, No. 4: "set-logic QF_UF, one declare-sort of arity 0, then in any order .. then exit, last". Rests on
// script_commands, script_steps, script_fields.
#![tactic(auto)]

ghost use Rattle.std.specs.Prelude.{ℕ, ◌≤◌, length};
ghost use Rattle.script_read.specs.Script.{LogicRead, SortNamed, LogicSet, SortSet, Left, CommandsAsk, CommandsRead, ScriptRead};

use script_commands::command;
use script_fields::begin;
use script_shelf::{Counts, Fault, Refusal};
use script_steps::want;
use script_tokens::{Kind, Lexeme};
use script_words::{is_word, read_at};

// The declared sort's name stands between `first` and `last`; the place behind the command.
#[derive(Clone, Copy, Debug, PartialEq, Eq)]
pub struct Sort {
    pub first: usize,
    pub last: usize,
    pub at: usize,
}

// The logic's name.
fn logic_at(script: &[u8], at: usize) -> Result<Lexeme, Refusal>
    requires { at ≤ length script.now }
    ensures { LogicRead script.now at result }
{
    let x = read_at(script, at);
    if !x.kind.is_simple() {
        return Err(Refusal {
            fault: Fault::OutsideSubset,
            place: x.from,
        });
    }
    if is_word(&script[x.from..x.to], script_words::QF_UF) {
        return Ok(x);
    }
    Err(Refusal {
        fault: Fault::OutsideSubset,
        place: x.from,
    })
}

// The sort's name: any simple symbol but Bool.
fn sort_name(script: &[u8], at: usize) -> Result<Lexeme, Refusal>
    requires { at ≤ length script.now }
    ensures { SortNamed script.now at result }
{
    let x = read_at(script, at);
    if !x.kind.is_simple() {
        return Err(Refusal {
            fault: Fault::OutsideSubset,
            place: x.from,
        });
    }
    if is_word(&script[x.from..x.to], script_words::BOOL) {
        return Err(Refusal {
            fault: Fault::AgainstDeclarations,
            place: x.from,
        });
    }
    if 32 < x.to - x.from {
        return Err(Refusal {
            fault: Fault::AboveLimit,
            place: x.from,
        });
    }
    Ok(x)
}

// set-logic, from the script's first byte on; the place behind it.
fn set_logic(script: &[u8]) -> Result<usize, Refusal>
    ensures { LogicSet script.now result }
{
    let opening = want(script, 0, Kind::Opening)?;
    let word = want(script, opening.to, script_words::SET_LOGIC)?;
    let logic = logic_at(script, word.to)?;
    let closing = want(script, logic.to, Kind::Closing)?;
    Ok(closing.to)
}

// declare-sort.
fn declare_sort(script: &[u8], at: usize) -> Result<Sort, Refusal>
    requires { at ≤ length script.now }
    ensures { SortSet script.now at result }
{
    let opening = want(script, at, Kind::Opening)?;
    let word = want(script, opening.to, script_words::DECLARE_SORT)?;
    let name = sort_name(script, word.to)?;
    let nought = want(script, name.to, script_words::NOUGHT)?;
    let closing = want(script, nought.to, Kind::Closing)?;
    Ok(Sort {
        first: name.from,
        last: name.to,
        at: closing.to,
    })
}

// exit, behind its name: nothing is left behind it.
fn leave(script: &[u8], at: usize) -> Result<(), Refusal>
    requires { at ≤ length script.now }
    ensures { Left script.now at result }
{
    let closing = want(script, at, Kind::Closing)?;
    let x = read_at(script, closing.to);
    let Kind::End = x.kind else {
        return Err(Refusal {
            fault: Fault::OutsideSubset,
            place: x.from,
        });
    };
    Ok(())
}

// The commands that are left over the declared sort, up to exit. Behind the last byte no command begins.
fn commands(
    script: &[u8],
    work: &mut [u16],
    counts: Counts,
    sort: &[u8],
    start: usize,
) -> Result<Counts, Refusal>
    requires { CommandsAsk script.now work.old counts start }
    ensures { CommandsRead script.now sort.now work.new start result }
{
    let mut at = start;
    let mut seen = counts;
    loop {
        let opening = want(script, at, Kind::Opening)?;
        let x = read_at(script, opening.to);
        if x.kind == script_words::EXIT {
            leave(script, x.to)?;
            return Ok(seen);
        }
        let done = command(script, work, seen, sort, opening.to)?;
        at = done.at;
        seen = done.counts;
    }
}

// A script of at most 60,000 bytes; how much of each the table holds then.
pub fn read_script(script: &[u8], work: &mut [u16]) -> Result<Counts, Refusal>
    requires { (length script.now ≤ 60000) × (32768 ≤ length work.old) }
    ensures { ScriptRead script.now work.new result }
{
    let counts = begin(work);
    let at = set_logic(script)?;
    let sort = declare_sort(script, at)?;
    let name = &script[sort.first..sort.last];
    commands(script, work, counts, name, sort.at)
}
