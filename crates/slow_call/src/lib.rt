// The simulator's call, with a record table of the caller's own. Document 02, No. 12. It has no condition on its caller: every job, room, table and limit gets the
// answer that slow_rest's specs define. That two outcomes are one is proved here. Rests on call_intake, where the record table has its part, and on slow_rest.
#![tactic(auto)]

ghost use Rattle.call_look.specs.Seen.{number_of, place_of, length_of};
ghost use Rattle.slow_rest.specs.Counted.{Counted};

use call_intake::receive;
pub use call_look::{Reason, Refusal};
use records::Record;
use slow_rest::count_rest;

// Closes all records of a job by passes: the count, and the leader of every tag at the front of the room; or 19 where more than `limit` passes change something. One who
// watches gets the leaders after `limit` passes instead of 19. Both tables are left zero in their named places.
pub fn passes(
    job: &[u8],
    room: &mut [u8],
    records: &mut [Record],
    work: &mut [u16],
    limit: usize,
    watch: bool,
) -> Result<usize, Refusal>
    ensures { Counted job.now room.old records.old work.old limit watch (number_of result) (place_of result) (length_of result) room.new records.new work.new }
{
    let looked = receive(job, records, work);
    count_rest(job, room, work, looked, limit, watch)
}
