// The numbers of a reason between a report and the table's list: written from there, read back, and compared. Document 01, "The job and the report"; document 02,
// No. 1. Rests on report_write, report_read and table.
#![tactic(auto)]

ghost use Rattle.std.specs.Prelude.{◌≡◌, ◌↔◌, true, ◌∷◌, ℕ, ◌+◌, ◌*◌, ◌≤◌, ◌<◌, length};
ghost use Rattle.meaning.specs.Limits.{most_records};
ghost use Rattle.table.specs.Map.{list_of, list_in};
ghost use Rattle.table.specs.Places.{Large};
ghost use Rattle.report.specs.Report.{two, numbers, field, laid};
ghost use Rattle.report_read.specs.Read.{Holds};
ghost use Rattle.report_numbers.specs.Read.{Placed, ListRead};

use meaning::RecordNo;
use report::{BECAUSE, BREACHED};
use report_read::number_in;
use report_write::{put_front, put_number};

// The record number at a place of the list goes to its place in a reason whose numbers begin at `at`.
fn put_listed(room: &mut [u8], at: usize, work: &[u16], i: usize)
    requires { Large work.now × (i < most_records) × (at + 2 * i + 2 ≤ length room.old) }
    ensures { room.new ≡ laid (at + 2 * i) (two (list_of work.now i)) room.old }
{
    let r = table::listed(work, i);
    put_number(room, at + 2 * i, r.number());
}

// The first numbers of the list, one behind the other.
fn write_list(room: &mut [u8], at: usize, work: &[u16], count: usize)
    requires { Large work.now × (count ≤ most_records) × (at + 2 * count ≤ length room.old) }
    ensures { room.new ≡ laid at (numbers (list_in count work.now)) room.old }
{
    for i in 0..count {
        put_listed(room, at, work, i);
    }
}

// The answer to an explain where the equality follows: the first numbers of the list.
pub fn write_reason(room: &mut [u8], at: usize, work: &[u16], count: usize)
    requires { Large work.now × (count ≤ most_records) × (at + 3 + 2 * count ≤ length room.old) }
    ensures { room.new ≡ laid at (field 132 (numbers (list_in count work.now))) room.old }
{
    put_front(room, at, BECAUSE, (2 * count) as u16);
    write_list(room, at + 3, work, count);
}

// The answer to a 06 where a pair is broken: its number, and the first numbers of the list.
pub fn write_breach(room: &mut [u8], at: usize, number: usize, work: &[u16], count: usize)
    requires { Large work.now × (count ≤ most_records) × (at + 5 + 2 * count ≤ length room.old) × (number < 65536) }
    ensures { room.new ≡ laid at (field 134 (numbers (number ∷ list_in count work.now))) room.old }
{
    put_front(room, at, BREACHED, (2 + 2 * count) as u16);
    put_number(room, at + 3, number as u16);
    write_list(room, at + 5, work, count);
}

// The number at a place of a reason whose numbers begin at `at` comes to its place in the list.
fn read_listed(report: &[u8], at: usize, work: &mut [u16], i: usize)
    requires { Large work.old × (i < most_records) × (at + 2 * i + 2 ≤ length report.now) }
    ensures { Placed report.now (at + 2 * i) i work.old work.new }
{
    let n = number_in(report, at + 2 * i);
    table::put_listed(work, i, RecordNo::of(n));
}

// The numbers of a reason come to the front of the list.
pub fn read_reason(report: &[u8], at: usize, work: &mut [u16], count: usize)
    requires { Large work.old × (count ≤ most_records) × (at + 2 * count ≤ length report.now) }
    ensures { ListRead report.now at count work.old work.new }
{
    for i in 0..count {
        read_listed(report, at, work, i);
    }
}

// Whether the number at a place of the list stands at its place in a reason whose numbers begin at `at`.
fn is_listed(report: &[u8], at: usize, work: &[u16], i: usize) -> bool
    requires { Large work.now × (i < most_records) × (at + 2 * i + 2 ≤ length report.now) }
    ensures { (result ≡ true) ↔ Holds report.now (at + 2 * i) (two (list_of work.now i)) }
{
    let r = table::listed(work, i);
    number_in(report, at + 2 * i) == r.number()
}

// Whether the first numbers of the list stand at a place, one behind the other.
pub fn is_list(report: &[u8], at: usize, work: &[u16], count: usize) -> bool
    requires { Large work.now × (count ≤ most_records) × (at + 2 * count ≤ length report.now) }
    ensures { (result ≡ true) ↔ Holds report.now at (numbers (list_in count work.now)) }
{
    for i in 0..count {
        if !is_listed(report, at, work, i) {
            return false;
        }
    }
    true
}
