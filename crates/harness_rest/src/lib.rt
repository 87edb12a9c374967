// The rest of a run and of a recheck of a plain harness sheet, once the record table has had its part: the job that was seen is seen again in the harness profile, which
// refuses kind 02. Document 02, No. 8. Rests on job_field, call_look and call_rest (what is seen and answered), harness_read, harness_answer, all_close and harness_judge.
#![tactic(auto)]

ghost use Rattle.std.specs.Prelude.{◌≡◌, true};
ghost use Rattle.call_look.specs.Begun.{Begun};
ghost use Rattle.call_look.specs.Look.{Viewed};
ghost use Rattle.call_look.specs.Seen.{seen, number_of, place_of, length_of};
ghost use Rattle.harness_rest.specs.Look.{Profiled, misplaced};
ghost use Rattle.harness_rest.specs.Finish.{Finished};
ghost use Rattle.harness_rest.specs.Weigh.{Weighed};

use all_close::close;
use call_look::{Reason, Refusal, Sight, give_back};
use call_rest::{fit, found};
use harness_answer::respond;
use harness_judge::judge;
use harness_read::first_application;
use job_field::Fault;

// The refusal of an application at a place.
fn refuse(place: usize) -> Refusal
    ensures { result ≡ misplaced place }
{
    Refusal {
        reason: Reason::Job(Fault::Misplaced),
        place,
    }
}

// What was seen, in this profile: the first field of kind 02 is refused unless another was before it.
fn in_profile(job: &[u8], looked: Result<Sight, Refusal>) -> Result<Sight, Refusal>
    requires { (seen looked).lent ≡ true → Viewed job.now (seen looked) }
    ensures { Profiled job.now (seen looked) (seen result) }
{
    match looked {
        Ok(_) => {
            let p = first_application(job);
            if p >= job.len() {
                return looked;
            }
            Err(refuse(p))
        }
        Err(refusal) => {
            if refusal.is_lent() {
                let p = first_application(job);
                if p >= job.len() {
                    return looked;
                }
                if refusal.place < p {
                    return looked;
                }
                return Err(refuse(p));
            }
            looked
        }
    }
}

// The rest of a run, with no record table in sight: the length of the report.
pub fn finish(
    job: &[u8],
    room: &mut [u8],
    work: &mut [u16],
    looked: Result<Sight, Refusal>,
) -> Result<usize, Refusal>
    requires { Begun job.now work.old (seen looked) }
    ensures { Finished job.now room.old work.old (seen looked) (number_of result) (place_of result) (length_of result) room.new work.new }
{
    let viewed = in_profile(job, looked);
    match fit(viewed, room.len()) {
        Ok(sight) => {
            let length = respond(job, room, work, sight.size, sight.records);
            give_back(work, true);
            Ok(length)
        }
        Err(refusal) => {
            give_back(work, refusal.is_lent());
            Err(refusal)
        }
    }
}

// The rest of a recheck, with no record table in sight.
pub fn weigh(
    job: &[u8],
    report: &[u8],
    work: &mut [u16],
    looked: Result<Sight, Refusal>,
) -> Result<(), Refusal>
    requires { Begun job.now work.old (seen looked) }
    ensures { Weighed job.now report.now work.old (seen looked) (number_of result) (place_of result) work.new }
{
    match in_profile(job, looked) {
        Ok(sight) => {
            let t = close(work, sight.size, sight.records);
            let j = judge(
                job,
                report,
                work,
                sight.size,
                sight.records,
                t.joins,
                t.idle,
            );
            give_back(work, true);
            found(j)
        }
        Err(refusal) => {
            give_back(work, refusal.is_lent());
            Err(refusal)
        }
    }
}
