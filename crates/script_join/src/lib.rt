// One argument more of a term that is being read. Document 02, No. 4.
#![tactic(auto)]

ghost use Rattle.std.specs.Prelude.{true, false, MatchResult};
ghost use Rattle.script_parts.specs.Pairs.{Ready};
ghost use Rattle.script_join.specs.Promises.{Joins};

use script_fields::fits;
use script_parts::{Numbered, meet};
use script_shelf::Counts;

// The part that a head and its argument make; an error if that passes a limit, though it is made all the same. The limits of a whole term are tested at its closing
// parenthesis.
pub fn join(
    work: &mut [u16],
    counts: Counts,
    head: u16,
    tag: u16,
    whole: bool,
) -> Result<Numbered, Numbered>
    requires { Ready work.old counts head tag }
    ensures { MatchResult result (λ made. Joins work.old work.new counts made.counts head tag whole true made.number) (λ made. Joins work.old work.new counts made.counts head tag whole false made.number) }
{
    let made = meet(work, counts, head, tag);
    if whole || fits(made.counts) {
        Ok(made)
    } else {
        Err(made)
    }
}
