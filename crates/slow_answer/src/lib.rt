// What the simulator is told: the closure by passes, and the leader of every tag at the front of the room; or that the limit is spent. Document 02, No. 12.
// Rests on call_look (why it refuses), slow_close, leading (the seats of the units) and answer_why (how a leader is written).
#![tactic(auto)]

ghost use Rattle.std.specs.Prelude.{◌≡◌, ℕ, ◌*◌, ◌≤◌, length};
ghost use Rattle.meaning.specs.Limits.{most_tags};
ghost use Rattle.table.specs.Map.{gather, Loaded};
ghost use Rattle.leading.specs.Leading.{leader_in, Seated};
ghost use Rattle.report.specs.Report.{numbers, laid};
ghost use Rattle.answer_why.specs.Why.{Labelled};
ghost use Rattle.call_look.specs.Seen.{number_of, place_of, length_of};
ghost use Rattle.slow_answer.specs.Telling.{Seating, most_of, Laying, Answered};

use answer_why::put_leader;
use call_look::{Reason, Refusal};
use leading::seat_units;
use slow_close::advance;
use table::{SAVED, SINCE};
use table_labels::count_up;

// Every label has its leader for its seat.
fn seat_all(work: &mut [u16], size: usize, unit: usize)
    requires { Seating work.old size unit }
    ensures { Seated work.old work.new size unit }
{
    count_up(&mut work[SAVED..SINCE]);
    seat_units(work, size, unit);
}

// The leaders of all tags, at the front of the room.
fn put_leaders(room: &mut [u8], work: &[u16], size: usize)
    requires { Labelled work.now size × (2 * size ≤ length room.old) }
    ensures { room.new ≡ laid 0 (numbers (gather (leader_in work.now) size)) room.old }
{
    for i in 0..size {
        put_leader(room, 0, work, i);
    }
}

// How many passes are made at most: one more than the limit, which tells whether the count is above it; for one who watches, the limit.
fn most_passes(size: usize, limit: usize, watch: bool) -> usize
    requires { size ≤ most_tags }
    ensures { result ≡ most_of size limit watch }
{
    if watch {
        return limit;
    }
    if limit < size {
        return limit + 1;
    }
    size + 1
}

// The leaders of all tags by the labels, at the front of the room.
fn lay_leaders(room: &mut [u8], work: &mut [u16], size: usize, unit: usize)
    requires { Seating work.old size unit × (2 * size ≤ length room.old) }
    ensures { Laying work.old room.old size unit work.new room.new }
{
    seat_all(work, size, unit);
    put_leaders(room, work, size);
}

// Closes all records by passes and writes the leaders, and answers how many passes changed something; or 19 where more than `limit` passes change something. One who watches gets the leaders after `limit` of them.
pub fn answer_passes(
    room: &mut [u8],
    work: &mut [u16],
    size: usize,
    unit: usize,
    len: usize,
    limit: usize,
    watch: bool,
) -> Result<usize, Refusal>
    requires { Loaded size len work.old × (unit ≤ size) × (2 * size ≤ length room.old) }
    ensures { Answered size unit len limit watch work.old room.old work.new room.new (number_of result) (place_of result) (length_of result) }
{
    let most = most_passes(size, limit, watch);
    let done = advance(work, size, len, most);
    if done > limit {
        return Err(Refusal::of(Reason::LimitSpent));
    }
    lay_leaders(room, work, size, unit);
    Ok(done)
}
