// The rest of the simulator's call once the record table has had its part. Document 02, No. 12; document 01, "What is lent, and each refusal". Rests on
// call_look and slow_answer.
#![tactic(auto)]

ghost use Rattle.call_look.specs.Begun.{Begun};
ghost use Rattle.call_look.specs.Seen.{seen, number_of, place_of, length_of};
ghost use Rattle.slow_rest.specs.Rest.{Fitted, Rested};

use call_look::{Reason, Refusal, Sight, give_back};
use job_field::units;
use slow_answer::answer_passes;

// What was seen, with number 9 where the room is below 2N bytes. A refusal has no tags, so 9 comes behind all others but 19.
fn fit(looked: Result<Sight, Refusal>, room: usize) -> Result<Sight, Refusal>
    ensures { Fitted (seen looked) room (seen result) }
{
    let sight = looked?;
    if room / 2 < sight.size {
        return Err(Refusal::of(Reason::RoomTooShort));
    }
    Ok(sight)
}

// The rest of the call, with no record table in sight: how many passes changed something.
pub fn count_rest(
    job: &[u8],
    room: &mut [u8],
    work: &mut [u16],
    looked: Result<Sight, Refusal>,
    limit: usize,
    watch: bool,
) -> Result<usize, Refusal>
    requires { Begun job.now work.old (seen looked) }
    ensures { Rested job.now room.old work.old (seen looked) limit watch (number_of result) (place_of result) (length_of result) room.new work.new }
{
    match fit(looked, room.len()) {
        Ok(sight) => {
            let unit = usize::from(units(job));
            let passes = answer_passes(room, work, sight.size, unit, sight.records, limit, watch);
            give_back(work, true);
            passes
        }
        Err(refusal) => {
            give_back(work, refusal.is_lent());
            Err(refusal)
        }
    }
}
