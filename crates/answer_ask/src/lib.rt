// The answer to an ask as a field of the report: written into the room, and tested where it stands. Both go by the joins that were made
// before the question. Document 01, "The job and the report", and document 02, No. 3. Rests on moment, leading, report_write and report_read.
#![tactic(auto)]

ghost use Rattle.std.specs.Prelude.{◌≤◌, length};
ghost use Rattle.job_field.specs.Items.{ask};
ghost use Rattle.moment.specs.Posed.{head_of, Posed};
ghost use Rattle.answer_ask.specs.Facing.{Facing, Answered};
ghost use Rattle.answer_ask.specs.Right.{Looked};

use leading::leaders;
use meaning::Tag;
use moment::{Closed, Question};
use report_read::is_led;
use report_write::write_led;

// The leaders of two tags, as a field at a place of the room; the place behind it.
pub fn answer_ask(
    room: &mut [u8],
    work: &mut [u16],
    c: Closed,
    before: usize,
    out: usize,
    s: Tag,
    t: Tag,
) -> usize
    requires { Facing work.old room.old (head_of c) c.len c.joins before out (ask s.0 t.0) }
    ensures { Answered work.old room.old (head_of c) c.len before out (ask s.0 t.0) work.new room.new result }
{
    let (one, other) = leaders(work, c.size, c.unit, c.joins, before, s, t);
    write_led(room, out, one, other);
    out + 7
}

// Whether the answer to an ask stands at a place, the two leaders by the records before the question: then the place behind it, and otherwise the place, which is
// at fault.
pub fn led(report: &[u8], at: usize, work: &mut [u16], q: Question) -> Result<usize, usize>
    requires { Posed work.old q × (at ≤ length report.now) }
    ensures { Looked work.old work.new report.now at q result }
{
    let (one, other) = leaders(work, q.size, q.unit, q.joins, q.before, q.s, q.t);
    if is_led(report, at, one, other) {
        Ok(at + 7)
    } else {
        Err(at)
    }
}
