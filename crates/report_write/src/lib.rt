// The report's fields, written here and nowhere else: on this side it is the writer that unwraps Tag. The numbers of a reason are
// report_numbers'. Document 01, "The job and the report". Rests on meaning and report.
#![tactic(auto)]

ghost use Rattle.std.specs.Prelude.{◌≡◌, [], ◌∷◌, ℕ, ◌+◌, ◌*◌, ◌≤◌, ◌<◌, length};
ghost use Rattle.report.specs.Report.{two, numbers, field, front, laid};

use meaning::Tag;
use report::{APART, LED, TOTALS};

// A number as two bytes.
pub fn put_number(room: &mut [u8], at: usize, n: u16)
    requires { at + 2 ≤ length room.old }
    ensures { room.new ≡ laid at (two n) room.old }
{
    room[at] = (n / 256) as u8;
    room[at + 1] = (n % 256) as u8;
}

// A field's kind and the length of its body.
pub fn put_front(room: &mut [u8], at: usize, kind: u8, size: u16)
    requires { at + 3 ≤ length room.old }
    ensures { room.new ≡ laid at (front kind size) room.old }
{
    room[at] = kind;
    put_number(room, at + 1, size);
}

// A field of two numbers.
fn put_pair(room: &mut [u8], at: usize, kind: u8, a: u16, b: u16)
    requires { at + 7 ≤ length room.old }
    ensures { room.new ≡ laid at (field kind (numbers (a ∷ b ∷ []))) room.old }
{
    put_front(room, at, kind, 4);
    put_number(room, at + 3, a);
    put_number(room, at + 5, b);
}

// A tag, as its number.
pub fn put_tag(room: &mut [u8], at: usize, l: Tag)
    requires { at + 2 ≤ length room.old }
    ensures { room.new ≡ laid at (two l.0) room.old }
{
    put_number(room, at, l.number());
}

// The answer to an ask: the two leaders.
pub fn write_led(room: &mut [u8], at: usize, l: Tag, m: Tag)
    requires { at + 7 ≤ length room.old }
    ensures { room.new ≡ laid at (field 131 (numbers (l.0 ∷ m.0 ∷ []))) room.old }
{
    put_pair(room, at, LED, l.number(), m.number());
}

// A field without a body.
pub fn write_bare(room: &mut [u8], at: usize, kind: u8)
    requires { at + 3 ≤ length room.old }
    ensures { room.new ≡ laid at (field kind []) room.old }
{
    put_front(room, at, kind, 0);
}

// The answer to an explain where the equality does not follow.
pub fn write_apart(room: &mut [u8], at: usize)
    requires { at + 3 ≤ length room.old }
    ensures { room.new ≡ laid at (field 133 []) room.old }
{
    write_bare(room, at, APART);
}

// The totals.
pub fn write_totals(room: &mut [u8], at: usize, classes: usize, idle: usize)
    requires { (at + 7 ≤ length room.old) × (classes < 65536) × (idle < 65536) }
    ensures { room.new ≡ laid at (field 143 (numbers (classes ∷ idle ∷ []))) room.old }
{
    put_pair(room, at, TOTALS, classes as u16, idle as u16);
}
