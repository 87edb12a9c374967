// Terms. Document 02, No. 4: "a term holds terms, and a list of arguments holds terms again". Rests on script_words, script_names, script_fields, script_join,
// script_heads.
#![tactic(auto)]

ghost use Rattle.std.specs.Prelude.{◌≡◌, ◌≢◌, ℕ, ◌≤◌, length};
ghost use Rattle.script_meaning.specs.Tokens.{lex};
ghost use Rattle.script_tokens.specs.Kinds.{number};
ghost use Rattle.script_term_read.specs.Asks.{TermAsk, ArgumentsAsk, Closes, TermAnswered, ArgumentsAnswered};

use script_fields::fits;
use script_heads::head_of;
use script_join::join;
use script_names::look_up;
use script_shelf::{Counts, Fault, Refusal};
use script_tokens::{Kind, Lexeme};
use script_words::read_at;

// How deep a term may stand in terms.
const DEEPEST: u16 = 32;

// A term's number, its last token, the place behind it, and what the table holds by its end.
#[derive(Clone, Copy)]
pub struct Found {
    pub number: u16,
    pub last: usize,
    pub at: usize,
    pub counts: Counts,
}

// A bare name.
fn bare(
    script: &[u8],
    work: &[u16],
    counts: Counts,
    at: usize,
    x: Lexeme,
    depth: u16,
) -> Result<Found, Refusal>
    requires { TermAsk script.now work.now counts at (number x.kind) x.from x.to × (number x.kind ≢ 3) }
    ensures { TermAnswered script.now work.now work.now counts depth (lex script.now at) result }
{
    let place = x.from;
    let Kind::Name = x.kind else {
        return Err(Refusal {
            fault: Fault::OutsideSubset,
            place,
        });
    };
    let Some(symbol) = look_up(script, work, counts, x.from, x.to) else {
        return Err(Refusal {
            fault: Fault::AgainstDeclarations,
            place,
        });
    };
    if symbol.takes != 0 {
        return Err(Refusal {
            fault: Fault::AgainstDeclarations,
            place,
        });
    }
    if DEEPEST < depth {
        return Err(Refusal {
            fault: Fault::AboveLimit,
            place,
        });
    }
    Ok(Found {
        number: symbol.number,
        last: x.from,
        at: x.to,
        counts,
    })
}

// All arguments are read: the closing parenthesis.
fn close(script: &[u8], counts: Counts, number: u16, have: u16, at: usize) -> Result<Found, Refusal>
    requires { at ≤ length script.now }
    ensures { Closes script.now counts number have at result }
{
    let x = read_at(script, at);
    let place = x.from;
    match x.kind {
        Kind::Closing if have == 0 => Err(Refusal {
            fault: Fault::OutsideSubset,
            place,
        }),
        Kind::Closing if !fits(counts) => Err(Refusal {
            fault: Fault::AboveLimit,
            place,
        }),
        Kind::Closing => Ok(Found {
            number,
            last: x.from,
            at: x.to,
            counts,
        }),
        Kind::Opening | Kind::Name => Err(Refusal {
            fault: Fault::AgainstDeclarations,
            place,
        }),
        _ => Err(Refusal {
            fault: Fault::OutsideSubset,
            place,
        }),
    }
}

// The term whose first token, read from `at` on, is at hand.
#[cycle(arguments_term)]
pub fn term(
    script: &[u8],
    work: &mut [u16],
    counts: Counts,
    at: usize,
    x: Lexeme,
    depth: u16,
) -> Result<Found, Refusal>
    requires { TermAsk script.now work.old counts at (number x.kind) x.from x.to × (depth ≤ 33) }
    ensures { TermAnswered script.now work.old work.new counts depth (lex script.now at) result }
{
    let Kind::Opening = x.kind else {
        return bare(script, work, counts, at, x, depth);
    };
    if DEEPEST < depth {
        return Err(Refusal {
            fault: Fault::AboveLimit,
            place: x.from,
        });
    }
    let h = head_of(script, work, counts, x.to)?;
    arguments(script, work, counts, h.number, h.takes, h.at, depth)
}

// The arguments of a head, from `from` on.
#[cycle(arguments_term)]
fn arguments(
    script: &[u8],
    work: &mut [u16],
    counts: Counts,
    head: u16,
    wants: u16,
    from: usize,
    depth: u16,
) -> Result<Found, Refusal>
    requires { ArgumentsAsk script.now work.old counts head from × (depth ≤ 32) }
    ensures { ArgumentsAnswered script.now work.old work.new counts depth head wants from result }
{
    let mut at = from;
    let mut number = head;
    let mut seen = counts;
    for have in 0..wants {
        let x = read_at(script, at);
        match x.kind {
            Kind::End => {
                return Err(Refusal {
                    fault: Fault::OutsideSubset,
                    place: x.from,
                });
            }
            Kind::Closing => {
                let fault = if have == 0 {
                    Fault::OutsideSubset
                } else {
                    Fault::AgainstDeclarations
                };
                return Err(Refusal {
                    fault,
                    place: x.from,
                });
            }
            _ => {}
        }
        let argument = term(script, work, seen, at, x, depth + 1)?;
        let whole = wants <= have + 1;
        match join(work, argument.counts, number, argument.number, whole) {
            Ok(made) => {
                number = made.number;
                seen = made.counts;
            }
            Err(_) => {
                return Err(Refusal {
                    fault: Fault::AboveLimit,
                    place: argument.last,
                });
            }
        }
        at = argument.at;
    }
    close(script, seen, number, wants, at)
}
