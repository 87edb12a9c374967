// The sheets of a reason as a field of the report, behind the reason's own, in edition 2 alone. Document 02, No. 9. Rests on table, job_field, report and
// sheets_field.
#![tactic(auto)]

ghost use Rattle.answer_sheets.specs.Filing.{Fileable, FiledAt};

use sheets_field::write_sheets;

// The sheets of the list's records, as a field at a place of the room where the job is of edition 2; the place behind it.
pub fn file_sheets(
    job: &[u8],
    room: &mut [u8],
    work: &mut [u16],
    sheeted: bool,
    count: usize,
    out: usize,
) -> usize
    requires { Fileable job.now work.old room.old sheeted count out }
    ensures { FiledAt job.now work.old room.old count out work.new room.new result }
{
    if sheeted {
        write_sheets(job, room, work, count, out)
    } else {
        out
    }
}
