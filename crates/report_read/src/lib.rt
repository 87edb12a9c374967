// The report's fields, read here and nowhere else: on this side it is the reader that unwraps Tag. The numbers of a reason
// are reason_field's. Document 01, "The job and the report". Rests on meaning and report.
#![tactic(auto)]

ghost use Rattle.std.specs.Prelude.{◌≡◌, ◌↔◌, true, [], ◌∷◌, ℕ, ◌+◌, ◌*◌, ◌≤◌, ◌<◌, length};
ghost use Rattle.report.specs.Report.{two, numbers, field};
ghost use Rattle.report_read.specs.Read.{Holds, FrontAt};

use meaning::Tag;
use report::{APART, LED, TOTALS};

// The front of a field: its kind and how many bytes its body has.
#[derive(Clone, Copy, Debug, PartialEq, Eq)]
pub struct Front {
    pub kind: u8,
    pub size: usize,
}

// The number at a place.
pub fn number_in(report: &[u8], at: usize) -> u16
    requires { at + 2 ≤ length report.now }
    ensures { Holds report.now at (two result) }
{
    u16::from(report[at]) * 256 + u16::from(report[at + 1])
}

// The front of the field at a place, if the whole field is there.
pub fn front_at(report: &[u8], at: usize) -> Option<Front>
    requires { at ≤ length report.now }
    ensures { FrontAt report.now at result }
{
    if report.len() - at < 3 {
        return None;
    }
    let size = usize::from(number_in(report, at + 1));
    if report.len() - at - 3 < size {
        return None;
    }
    Some(Front {
        kind: report[at],
        size,
    })
}

// Whether a field of two numbers stands at a place.
fn is_pair(report: &[u8], at: usize, kind: u8, a: u16, b: u16) -> bool
    requires { at ≤ length report.now }
    ensures { (result ≡ true) ↔ Holds report.now at (field kind (numbers (a ∷ b ∷ []))) }
{
    if report.len() - at < 7 {
        return false;
    }
    if report[at] != kind {
        return false;
    }
    if number_in(report, at + 1) != 4 {
        return false;
    }
    if number_in(report, at + 3) != a {
        return false;
    }
    number_in(report, at + 5) == b
}

// Whether the number of a tag stands at a place.
pub fn is_tag(report: &[u8], at: usize, l: Tag) -> bool
    requires { at + 2 ≤ length report.now }
    ensures { (result ≡ true) ↔ Holds report.now at (two l.0) }
{
    number_in(report, at) == l.number()
}

// Whether the answer to an ask stands at a place: these two leaders.
pub fn is_led(report: &[u8], at: usize, l: Tag, m: Tag) -> bool
    requires { at ≤ length report.now }
    ensures { (result ≡ true) ↔ Holds report.now at (field 131 (numbers (l.0 ∷ m.0 ∷ []))) }
{
    is_pair(report, at, LED, l.number(), m.number())
}

// Whether these totals stand at a place.
pub fn is_totals(report: &[u8], at: usize, classes: usize, idle: usize) -> bool
    requires { (at ≤ length report.now) × (classes < 65536) × (idle < 65536) }
    ensures { (result ≡ true) ↔ Holds report.now at (field 143 (numbers (classes ∷ idle ∷ []))) }
{
    is_pair(report, at, TOTALS, classes as u16, idle as u16)
}

// Whether a field without a body stands at a place.
pub fn is_bare(report: &[u8], at: usize, kind: u8) -> bool
    requires { at ≤ length report.now }
    ensures { (result ≡ true) ↔ Holds report.now at (field kind []) }
{
    if report.len() - at < 3 {
        return false;
    }
    if report[at] != kind {
        return false;
    }
    number_in(report, at + 1) == 0
}

// Whether a place says that the equality does not follow.
pub fn is_apart(report: &[u8], at: usize) -> bool
    requires { at ≤ length report.now }
    ensures { (result ≡ true) ↔ Holds report.now at (field 133 []) }
{
    is_bare(report, at, APART)
}
