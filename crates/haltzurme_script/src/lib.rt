// The tool's call for scripts. Document 02, No. 4: "The caller lends 46,510 bytes for the job, and the tables; they end as 01's room and tables do." It has no condition
// on its caller: every script, room and table gets the answer that specs/ defines. Rests on script_call, and on records for the table that it clears.
#![tactic(auto)]

ghost use Rattle.script_call.specs.Parts.{lent_of, number_of, place_of, length_of};
ghost use Rattle.haltzurme_script.specs.Translated.{Translated};

use records::{Record, clear};
pub use script_call::{Reason, Refusal};
use script_call::{is_lent, translate_beside};

// Reads a script, and answers with the job's length: the job comes to the front of the room, and both tables are left zero in their named places.
pub fn translate(
    script: &[u8],
    room: &mut [u8],
    records: &mut [Record],
    work: &mut [u16],
) -> Result<usize, Refusal>
    ensures { Translated script.now room.old records.old work.old (lent_of result) (number_of result) (place_of result) (length_of result) room.new records.new work.new }
{
    let made = translate_beside(script, room, work, records.len());
    if is_lent(&made) {
        clear(records);
    }
    made
}
