// The commands between declare-sort and exit. Document 02, No. 4: "declare-fun over it, assert of an equality of two terms or a negated one and check-sat". Rests on
// script_steps, script_term_read, script_fields, script_names.
#![tactic(auto)]

ghost use Rattle.script_terms.specs.Terms.{check};
ghost use Rattle.script_meaning.specs.Reading.{with_check, done, declare_function, equality as equalityOf, negation as negationOf, assertion as assertionOf, command as commandOf};
ghost use Rattle.script_commands.specs.Commands.{CommandAsk, SideRead, SidesRead, Does, Finished};

use script_fields::{fits, note_check, note_differ, note_equal};
use script_names::declare;
use script_shelf::{Counts, Fault, Refusal};
use script_steps::{new_name, sort_at, sorts, want};
use script_term_read::{Found, term};
use script_tokens::{Kind, Lexeme};
use script_words::read_at;

// The place behind a command, and what the table holds by its end.
#[derive(Clone, Copy)]
pub struct Done {
    pub at: usize,
    pub counts: Counts,
}

// Both terms of an equality by their numbers, the place behind its closing parenthesis, and what the table holds by then.
#[derive(Clone, Copy)]
struct Pair {
    left: u16,
    right: u16,
    at: usize,
    counts: Counts,
}

// The command is read up to its closing parenthesis: is the job within its limits?
fn finish(counts: Counts, closing: Lexeme) -> Result<Done, Refusal>
    ensures { Finished counts closing result }
{
    if fits(counts) {
        return Ok(Done {
            at: closing.to,
            counts,
        });
    }
    Err(Refusal {
        fault: Fault::AboveLimit,
        place: closing.from,
    })
}

// One side of an equality.
fn side(script: &[u8], work: &mut [u16], counts: Counts, at: usize) -> Result<Found, Refusal>
    requires { CommandAsk script.now work.old counts at }
    ensures { SideRead script.now work.old work.new counts at result }
{
    let x = read_at(script, at);
    term(script, work, counts, at, x, 1)
}

// Both sides, behind the `=`, and its closing parenthesis.
fn sides(script: &[u8], work: &mut [u16], counts: Counts, at: usize) -> Result<Pair, Refusal>
    requires { CommandAsk script.now work.old counts at }
    ensures { SidesRead script.now work.old work.new counts at result }
{
    let left = side(script, work, counts, at)?;
    let right = side(script, work, left.counts, left.at)?;
    let closing = want(script, right.at, Kind::Closing)?;
    Ok(Pair {
        left: left.number,
        right: right.number,
        at: closing.to,
        counts: right.counts,
    })
}

// assert of an equality, behind its `=`.
fn equality(script: &[u8], work: &mut [u16], counts: Counts, at: usize) -> Result<Done, Refusal>
    requires { CommandAsk script.now work.old counts at }
    ensures { Does (λ t. equalityOf script.now t at) script.now work.old work.new counts at result }
{
    let equal = sides(script, work, counts, at)?;
    let closing = want(script, equal.at, Kind::Closing)?;
    let noted = note_equal(work, equal.counts, equal.left, equal.right);
    finish(noted, closing)
}

// assert of a negated equality, behind its `not`.
fn negation(script: &[u8], work: &mut [u16], counts: Counts, at: usize) -> Result<Done, Refusal>
    requires { CommandAsk script.now work.old counts at }
    ensures { Does (λ t. negationOf script.now t at) script.now work.old work.new counts at result }
{
    let opening = want(script, at, Kind::Opening)?;
    let equals = want(script, opening.to, script_words::EQUALS)?;
    let equal = sides(script, work, counts, equals.to)?;
    let inner = want(script, equal.at, Kind::Closing)?;
    let closing = want(script, inner.to, Kind::Closing)?;
    let noted = note_differ(work, equal.counts, equal.left, equal.right);
    finish(noted, closing)
}

// assert, behind its name.
fn assertion(script: &[u8], work: &mut [u16], counts: Counts, at: usize) -> Result<Done, Refusal>
    requires { CommandAsk script.now work.old counts at }
    ensures { Does (λ t. assertionOf script.now t at) script.now work.old work.new counts at result }
{
    let opening = want(script, at, Kind::Opening)?;
    let x = read_at(script, opening.to);
    if x.kind == script_words::EQUALS {
        return equality(script, work, counts, x.to);
    }
    let negated = x.kind == script_words::NOT;
    if negated {
        return negation(script, work, counts, x.to);
    }
    Err(Refusal {
        fault: Fault::OutsideSubset,
        place: x.from,
    })
}

// check-sat, behind its name.
fn check_sat(script: &[u8], work: &mut [u16], counts: Counts, at: usize) -> Result<Done, Refusal>
    requires { CommandAsk script.now work.old counts at }
    ensures { Does (λ t. done check (with_check t) script.now at) script.now work.old work.new counts at result }
{
    let closing = want(script, at, Kind::Closing)?;
    let noted = note_check(work, counts);
    finish(noted, closing)
}

// declare-fun, behind its name, over the declared sort.
fn declare_fun(
    script: &[u8],
    work: &mut [u16],
    counts: Counts,
    sort: &[u8],
    at: usize,
) -> Result<Done, Refusal>
    requires { CommandAsk script.now work.old counts at }
    ensures { Does (λ t. declare_function script.now sort.now t at) script.now work.old work.new counts at result }
{
    let name = new_name(script, work, counts, at)?;
    let opening = want(script, name.to, Kind::Opening)?;
    let takes = sorts(script, sort, opening.to)?;
    let gives = sort_at(script, sort, takes.at)?;
    let closing = want(script, gives.to, Kind::Closing)?;
    let declared = declare(script, work, counts, name.from, name.to, takes.number);
    finish(declared, closing)
}

// A command behind its opening parenthesis, but for exit; sort is the declared sort's name.
pub fn command(
    script: &[u8],
    work: &mut [u16],
    counts: Counts,
    sort: &[u8],
    at: usize,
) -> Result<Done, Refusal>
    requires { CommandAsk script.now work.old counts at }
    ensures { Does (λ t. commandOf script.now sort.now t at) script.now work.old work.new counts at result }
{
    let x = read_at(script, at);
    if x.kind == script_words::DECLARE_FUN {
        return declare_fun(script, work, counts, sort, x.to);
    }
    if x.kind == script_words::ASSERT {
        return assertion(script, work, counts, x.to);
    }
    if x.kind == script_words::CHECK_SAT {
        return check_sat(script, work, counts, x.to);
    }
    Err(Refusal {
        fault: Fault::OutsideSubset,
        place: x.from,
    })
}
