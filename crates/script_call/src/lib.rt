// A script becomes a job, with no record table in sight: lengths are looked at, the script is read into the work table, the job is written, and the work table is given
// back. Document 02, No. 4; document 01, "What is lent, and each refusal". Rests on script_shelf (why a script is refused), script_read and script_write.
#![tactic(auto)]

ghost use Rattle.std.specs.Prelude.{◌≡◌, true, ℕ, ◌≤◌};
ghost use Rattle.script_call.specs.Parts.{lent_of, number_of, place_of, length_of};
ghost use Rattle.script_call.specs.Translating.{Enough, Filled, Carried, Rested};

use script_read::read_script;
use script_write::write_job;

mod refusal;

pub use refusal::{Reason, Refusal, is_lent};

// Document 02, No. 4: "1 for a script above 60,000 bytes"; "The caller lends 46,510 bytes for the job".
pub const LONGEST_SCRIPT: usize = 60000;

pub const JOB_ROOM: usize = 46510;

pub const PLACES: usize = meaning::NAMED_PLACES;

pub const NAMED: usize = meaning::NAMED_NUMBERS;

// Reads the script, writes the job where it is accepted, and leaves the part zero; the length of the job.
fn convert(script: &[u8], room: &mut [u8], part: &mut [u16]) -> Result<usize, Refusal>
    requires { Enough script.now room.old part.old }
    ensures { Filled script.now room.old (lent_of result) (number_of result) (place_of result) (length_of result) room.new part.new }
{
    let counts = match read_script(script, part) {
        Ok(counts) => counts,
        Err(refusal) => {
            part.fill(0);
            return Err(Refusal {
                reason: Reason::Script(refusal.fault),
                place: refusal.place,
            });
        }
    };
    let length = write_job(part, counts, room);
    part.fill(0);
    Ok(length)
}

// The same in the named places of the work table.
fn carry(script: &[u8], room: &mut [u8], work: &mut [u16]) -> Result<usize, Refusal>
    requires { Enough script.now room.old work.old }
    ensures { Carried script.now room.old work.old (lent_of result) (number_of result) (place_of result) (length_of result) room.new work.new }
{
    convert(script, room, &mut work[0..NAMED])
}

// Refusals 1, 2, then those of the reading; or the job, by its length. The record table has so many places.
pub fn translate_beside(
    script: &[u8],
    room: &mut [u8],
    work: &mut [u16],
    places: usize,
) -> Result<usize, Refusal>
    ensures { Rested script.now room.old places work.old (lent_of result) (number_of result) (place_of result) (length_of result) room.new work.new }
{
    if LONGEST_SCRIPT < script.len() {
        return Err(Refusal {
            reason: Reason::ScriptTooLong,
            place: 0,
        });
    }
    if room.len() < JOB_ROOM || places < PLACES || work.len() < NAMED {
        return Err(Refusal {
            reason: Reason::LoanTooShort,
            place: 0,
        });
    }
    carry(script, room, work)
}
