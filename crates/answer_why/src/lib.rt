// The answer to a why as a field of the report: the leader of every tag where the equality does not follow, and no body where it does. Written into the room, and
// tested where it stands. Document 02, No. 7. Rests on moment, leading, report_write, report_read and answer_ask.
#![tactic(auto)]

ghost use Rattle.std.specs.Prelude.{◌≡◌, ◌↔◌, true, ℕ, ◌+◌, ◌*◌, ◌≤◌, ◌<◌, length};
ghost use Rattle.job_field.specs.Items.{why};
ghost use Rattle.meaning.specs.Limits.{most_tags};
ghost use Rattle.table.specs.Map.{label_of, gather};
ghost use Rattle.table.specs.Places.{Large};
ghost use Rattle.leading.specs.Leading.{leader_in};
ghost use Rattle.report.specs.Report.{two, numbers, field, laid};
ghost use Rattle.report_read.specs.Read.{Holds};
ghost use Rattle.moment.specs.Posed.{head_of, Posed};
ghost use Rattle.answer_ask.specs.Facing.{Facing, Answered};
ghost use Rattle.answer_why.specs.Why.{Labelled, Doubted};

use leading::{lead, leader_of};
use meaning::Tag;
use moment::{Closed, Question};
use report::{JOINED, PARTED};
use report_read::{is_bare, is_tag, number_in};
use report_write::{put_front, put_tag, write_bare};

// The leader of a tag goes to its place in a list of leaders that begins at `at`.
pub fn put_leader(room: &mut [u8], at: usize, work: &[u16], i: usize)
    requires { Large work.now × (i < most_tags) × (label_of work.now i < most_tags) × (at + 2 * i + 2 ≤ length room.old) }
    ensures { room.new ≡ laid (at + 2 * i) (two (leader_in work.now i)) room.old }
{
    let l = leader_of(work, table::tag_at(i));
    put_tag(room, at + 2 * i, l);
}

// The leaders of all tags, as a field.
fn write_leaders(room: &mut [u8], at: usize, work: &[u16], size: usize)
    requires { Labelled work.now size × (at + 3 + 2 * size ≤ length room.old) }
    ensures { room.new ≡ laid at (field 136 (numbers (gather (leader_in work.now) size))) room.old }
{
    put_front(room, at, PARTED, (2 * size) as u16);
    for i in 0..size {
        put_leader(room, at + 3, work, i);
    }
}

// Why two tags are not equal, or that they are, as a field at a place of the room; the place behind it.
pub fn answer_why(
    room: &mut [u8],
    work: &mut [u16],
    c: Closed,
    before: usize,
    out: usize,
    s: Tag,
    t: Tag,
) -> usize
    requires { Facing work.old room.old (head_of c) c.len c.joins before out (why s.0 t.0) }
    ensures { Answered work.old room.old (head_of c) c.len before out (why s.0 t.0) work.new room.new result }
{
    lead(work, c.size, c.unit, c.joins, before);
    let l = leader_of(work, s);
    let m = leader_of(work, t);
    if l == m {
        write_bare(room, out, JOINED);
        return out + 3;
    }
    write_leaders(room, out, work, c.size);
    out + 3 + 2 * c.size
}

// Whether the leader of a tag stands at its place in a list of leaders that begins at `at`.
fn is_leader(report: &[u8], at: usize, work: &[u16], i: usize) -> bool
    requires { Large work.now × (i < most_tags) × (label_of work.now i < most_tags) × (at + 2 * i + 2 ≤ length report.now) }
    ensures { (result ≡ true) ↔ Holds report.now (at + 2 * i) (two (leader_in work.now i)) }
{
    let l = leader_of(work, table::tag_at(i));
    is_tag(report, at + 2 * i, l)
}

// Whether the leaders of all tags stand at a place, one behind the other.
fn are_leaders(report: &[u8], at: usize, work: &[u16], size: usize) -> bool
    requires { Labelled work.now size × (at + 2 * size ≤ length report.now) }
    ensures { (result ≡ true) ↔ Holds report.now at (numbers (gather (leader_in work.now) size)) }
{
    for i in 0..size {
        if !is_leader(report, at, work, i) {
            return false;
        }
    }
    true
}

// Whether the leaders of all tags stand at a place as a field.
fn is_parted(report: &[u8], at: usize, work: &[u16], size: usize) -> bool
    requires { Labelled work.now size × (at ≤ length report.now) }
    ensures { (result ≡ true) ↔ Holds report.now at (field 136 (numbers (gather (leader_in work.now) size))) }
{
    let all = 2 * size;
    if report.len() - at < 3 + all {
        return false;
    }
    if report[at] != PARTED {
        return false;
    }
    if number_in(report, at + 1) != all as u16 {
        return false;
    }
    are_leaders(report, at + 3, work, size)
}

// Whether the answer to a why stands at a place: the leaders by the records before the question, or that the equality follows.
pub fn doubted(report: &[u8], at: usize, work: &mut [u16], q: Question) -> Result<usize, usize>
    requires { Posed work.old q × (at ≤ length report.now) }
    ensures { Doubted work.old work.new report.now at q result }
{
    lead(work, q.size, q.unit, q.joins, q.before);
    let l = leader_of(work, q.s);
    let m = leader_of(work, q.t);
    if l == m {
        if is_bare(report, at, JOINED) {
            return Ok(at + 3);
        }
        return Err(at);
    }
    if is_parted(report, at, work, q.size) {
        Ok(at + 3 + 2 * q.size)
    } else {
        Err(at)
    }
}
