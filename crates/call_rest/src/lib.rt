// The rest of a run and of a recheck once the record table has had its part. Document 01, "What is lent, and each refusal". Rests on call_look,
// answer_all, all_close and judge.
#![tactic(auto)]

ghost use Rattle.call_look.specs.Begun.{Begun};
ghost use Rattle.call_rest.specs.Finish.{Fitted, Finished};
ghost use Rattle.std.specs.Prelude.{◌≡◌};
ghost use Rattle.call_rest.specs.Weigh.{Weighed, finding_of};
ghost use Rattle.call_look.specs.Seen.{seen, number_of, place_of, length_of};

use all_close::close;
use answer_all::respond;
use call_look::{Reason, Refusal, Sight, give_back};
use judge::judge;

// What was seen, with number 9 where the room is smaller than needed. A refusal needs none, so 9 is last.
pub fn fit(looked: Result<Sight, Refusal>, room: usize) -> Result<Sight, Refusal>
    ensures { Fitted (seen looked) room (seen result) }
{
    let sight = looked?;
    if room < sight.needed {
        return Err(Refusal::of(Reason::RoomTooShort));
    }
    Ok(sight)
}

// The rest of a run, with no record table in sight: the length of the report.
pub fn finish(
    job: &[u8],
    room: &mut [u8],
    work: &mut [u16],
    looked: Result<Sight, Refusal>,
) -> Result<usize, Refusal>
    requires { Begun job.now work.old (seen looked) }
    ensures { Finished job.now room.old work.old (seen looked) (number_of result) (place_of result) (length_of result) room.new work.new }
{
    match fit(looked, room.len()) {
        Ok(sight) => {
            let length = respond(job, room, work, sight.size, sight.records);
            give_back(work, true);
            Ok(length)
        }
        Err(refusal) => {
            give_back(work, refusal.is_lent());
            Err(refusal)
        }
    }
}

// What a judgement comes to: a report at fault is refused at its first place at fault.
pub fn found(j: Result<(), usize>) -> Result<(), Refusal>
    ensures { result ≡ finding_of j }
{
    match j {
        Ok(()) => Ok(()),
        Err(place) => Err(Refusal {
            reason: Reason::ReportUnsound,
            place,
        }),
    }
}

// The rest of a recheck, with no record table in sight.
pub fn weigh(
    job: &[u8],
    report: &[u8],
    work: &mut [u16],
    looked: Result<Sight, Refusal>,
) -> Result<(), Refusal>
    requires { Begun job.now work.old (seen looked) }
    ensures { Weighed job.now report.now work.old (seen looked) (number_of result) (place_of result) work.new }
{
    match looked {
        Ok(sight) => {
            let t = close(work, sight.size, sight.records);
            let j = judge(
                job,
                report,
                work,
                sight.size,
                sight.records,
                t.joins,
                t.idle,
            );
            give_back(work, true);
            found(j)
        }
        Err(refused) => {
            give_back(work, refused.is_lent());
            Err(refused)
        }
    }
}
