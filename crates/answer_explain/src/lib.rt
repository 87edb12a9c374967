// The answer to an explain as a field of the report, by the joins that were made before the question, with the sheets of its reason behind it in edition 2.
// Document 01, "Reasons" and "The job and the report"; document 02, No. 9. Which list is a reason, the profile says. Rests on moment, answer_ask, profile, report_write,
// report_numbers and answer_sheets.
#![tactic(auto)]

ghost use Rattle.job_field.specs.Reading.{items_in};
ghost use Rattle.moment.specs.Posed.{head_of};
ghost use Rattle.answer_explain.specs.Explaining.{Explaining, Explained};

use answer_sheets::file_sheets;
use meaning::Tag;
use moment::Closed;
use profile::Profile;
use report_numbers::write_reason;
use report_write::write_apart;

// Why two tags are equal, with the sheets of that, or that they are not, as fields at a place of the room; the place behind them.
pub fn answer_explain<P: Profile>(
    job: &[u8],
    room: &mut [u8],
    work: &mut [u16],
    c: Closed,
    before: usize,
    out: usize,
    s: Tag,
    t: Tag,
) -> usize
    requires { Explaining job.now work.old room.old (head_of c) c.len c.joins before out s.0 t.0 × P.rules.Asks (items_in job.now) }
    ensures { Explained P.rules job.now work.old room.old before out s.0 t.0 work.new room.new result }
{
    match P::explain(work, c.size, c.len, c.joins, before, s, t) {
        Some(count) => {
            write_reason(room, out, work, count);
            file_sheets(job, room, work, c.sheeted, count, out + 3 + 2 * count)
        }
        None => {
            write_apart(room, out);
            out + 3
        }
    }
}
