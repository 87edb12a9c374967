// The simulator's call for a caller that holds no record table: it lends one of its own, 4,000 places that are blank. Document 02, No. 12. No call has a condition on
// its caller. `passes_over` lends places that all hold a record of the caller's choice, for tests with a dirty table. Rests on haltzurme_own, where that table has its
// part, and on slow_rest.
#![tactic(auto)]

ghost use Rattle.std.specs.Prelude.{true, false};
ghost use Rattle.call_look.specs.Seen.{number_of, place_of, length_of};
ghost use Rattle.slow_own.specs.Plain.{CountedOver, CountedAlone};

pub use call_look::{Reason, Refusal};
use haltzurme_own::{BLANK, receive_over};
use records::Record;
use slow_rest::count_rest;

// Closes all records by passes, or makes as many as are to be watched. Each place of the record table holds the same record.
pub fn passes_over(
    job: &[u8],
    room: &mut [u8],
    work: &mut [u16],
    limit: usize,
    watch: bool,
    each: Record,
) -> Result<usize, Refusal>
    ensures { CountedOver each job.now room.old work.old limit watch (number_of result) (place_of result) (length_of result) room.new work.new }
{
    let looked = receive_over(job, work, each);
    count_rest(job, room, work, looked, limit, watch)
}

// Closes all records of a job by passes: the count, and the leader of every tag at the front of the room; or 19 where more than `limit` passes change something.
pub fn count_passes(
    job: &[u8],
    room: &mut [u8],
    work: &mut [u16],
    limit: usize,
) -> Result<usize, Refusal>
    ensures { CountedAlone job.now room.old work.old limit false (number_of result) (place_of result) (length_of result) room.new work.new }
{
    passes_over(job, room, work, limit, false, BLANK)
}

// Shows the classes after `most` passes, or after all that change something: how many were made, and the leader of every tag by them at the front of the room.
pub fn watch_passes(
    job: &[u8],
    room: &mut [u8],
    work: &mut [u16],
    most: usize,
) -> Result<usize, Refusal>
    ensures { CountedAlone job.now room.old work.old most true (number_of result) (place_of result) (length_of result) room.new work.new }
{
    passes_over(job, room, work, most, true, BLANK)
}
