// The head of a term: a name of the script's own that is declared. Document 02, No. 4. Rests on script_names, script_words.
#![tactic(auto)]

ghost use Rattle.std.specs.Prelude.{◌≡◌, ℕ, ◌+◌, ◌≤◌, ◌<◌, length, MatchResult};
ghost use Rattle.script_shelf.specs.Refusals.{fault_number};
ghost use Rattle.script_heads.specs.Names.{Readable, Heads};

use script_names::look_up;
use script_shelf::{Counts, Fault, Refusal};
use script_tokens::Kind;
use script_words::read_at;

// The head of a term: its symbol, its number of arguments, the place behind it.
#[derive(Clone, Copy, Debug, PartialEq, Eq)]
pub struct Head {
    pub number: u16,
    pub takes: u16,
    pub at: usize,
}

pub fn head_of(script: &[u8], work: &[u16], counts: Counts, at: usize) -> Result<Head, Refusal>
    requires { Readable script.now work.now counts at }
    ensures { MatchResult result (λ h. Heads script.now work.now counts at 0 0 h.number h.takes h.at) (λ r. Heads script.now work.now counts at (fault_number r.fault) r.place 0 0 0) }
{
    let x = read_at(script, at);
    let Kind::Name = x.kind else {
        return Err(Refusal {
            fault: Fault::OutsideSubset,
            place: x.from,
        });
    };
    match look_up(script, work, counts, x.from, x.to) {
        Some(symbol) => Ok(Head {
            number: symbol.number,
            takes: symbol.takes,
            at: x.to,
        }),
        None => Err(Refusal {
            fault: Fault::AgainstDeclarations,
            place: x.from,
        }),
    }
}
