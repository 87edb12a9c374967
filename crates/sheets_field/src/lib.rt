// The sheets of a reason in a report: the field 8A, written and tested. Document 02, No. 9. Rests on sheets_walk, which finds the sheets, on report_write,
// report_read and table.
#![tactic(auto)]

ghost use Rattle.std.specs.Prelude.{◌≡◌, ◌↔◌, true, ◌+◌, ◌*◌, ◌≤◌, ◌<◌, length};
ghost use Rattle.table.specs.Map.{sheet_of, sheets_in};
ghost use Rattle.table.specs.Places.{Large, front_size};
ghost use Rattle.report.specs.Report.{two, numbers, field, laid};
ghost use Rattle.report_read.specs.Read.{Holds};
ghost use Rattle.sheets_walk.specs.Walk.{Listed};
ghost use Rattle.sheets_field.specs.Field.{Laid, Seen};

use report::SHEETS;
use report_read::number_in;
use report_write::{put_front, put_number};
use sheets_walk::find_sheets;

// The sheet at a place of the table goes to its place in a field whose numbers begin at `at`.
fn put_sheet(room: &mut [u8], at: usize, work: &[u16], i: usize)
    requires { Large work.now × (i < front_size) × (at + 2 * i + 2 ≤ length room.old) }
    ensures { room.new ≡ laid (at + 2 * i) (two (sheet_of work.now i)) room.old }
{
    let h = table::sheet(work, i);
    put_number(room, at + 2 * i, h);
}

// The first of the table's sheets, one behind the other.
fn write_numbers(room: &mut [u8], at: usize, work: &[u16], count: usize)
    requires { Large work.now × (count ≤ front_size) × (at + 2 * count ≤ length room.old) }
    ensures { room.new ≡ laid at (numbers (sheets_in count work.now)) room.old }
{
    for i in 0..count {
        put_sheet(room, at, work, i);
    }
}

// The 8A of the first of the table's sheets.
fn write_field(room: &mut [u8], at: usize, work: &[u16], count: usize)
    requires { Large work.now × (count ≤ front_size) × (at + 3 + 2 * count ≤ length room.old) }
    ensures { room.new ≡ laid at (field 138 (numbers (sheets_in count work.now))) room.old }
{
    put_front(room, at, SHEETS, (2 * count) as u16);
    write_numbers(room, at + 3, work, count);
}

// The 8A of the records of the list is laid at a place. Says where it ends.
pub fn write_sheets(job: &[u8], room: &mut [u8], work: &mut [u16], count: usize, at: usize) -> usize
    requires { Listed job.now work.old count × (at + 3 + 2 * count ≤ length room.old) }
    ensures { Laid job.now work.old work.new room.old room.new count at result }
{
    let c = find_sheets(job, work, count);
    write_field(room, at, work, c);
    at + 3 + 2 * c
}

// Whether the sheet at a place of the table stands at its place in a field whose numbers begin at `at`.
fn is_sheet(report: &[u8], at: usize, work: &[u16], i: usize) -> bool
    requires { Large work.now × (i < front_size) × (at + 2 * i + 2 ≤ length report.now) }
    ensures { (result ≡ true) ↔ Holds report.now (at + 2 * i) (two (sheet_of work.now i)) }
{
    let due = table::sheet(work, i);
    number_in(report, at + 2 * i) == due
}

// Whether the first of the table's sheets stand at a place, one behind the other.
fn are_numbers(report: &[u8], at: usize, work: &[u16], count: usize) -> bool
    requires { Large work.now × (count ≤ front_size) × (at + 2 * count ≤ length report.now) }
    ensures { (result ≡ true) ↔ Holds report.now at (numbers (sheets_in count work.now)) }
{
    for i in 0..count {
        if !is_sheet(report, at, work, i) {
            return false;
        }
    }
    true
}

// Whether the 8A of the first of the table's sheets stands at a place.
fn is_field(report: &[u8], at: usize, work: &[u16], count: usize) -> bool
    requires { Large work.now × (count ≤ front_size) × (at ≤ length report.now) }
    ensures { (result ≡ true) ↔ Holds report.now at (field 138 (numbers (sheets_in count work.now))) }
{
    if report.len() - at < 3 + 2 * count {
        return false;
    }
    if report[at] != SHEETS {
        return false;
    }
    if number_in(report, at + 1) != (2 * count) as u16 {
        return false;
    }
    are_numbers(report, at + 3, work, count)
}

// Where the 8A of the records of the list ends that stands at a place, or none where it does not stand there.
pub fn is_sheets(
    job: &[u8],
    report: &[u8],
    at: usize,
    work: &mut [u16],
    count: usize,
) -> Option<usize>
    requires { Listed job.now work.old count × (at ≤ length report.now) }
    ensures { Seen job.now work.old work.new report.now count at result }
{
    let c = find_sheets(job, work, count);
    if is_field(report, at, work, c) {
        Some(at + 3 + 2 * c)
    } else {
        None
    }
}
