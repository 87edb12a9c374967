// The columns of the work table: the records, by number.

ghost use Rattle.std.specs.Prelude.{◌≡◌, ◌+◌, ◌≤◌, eqb, set};
ghost use Rattle.meaning.specs.Limits.{most_records};
ghost use Rattle.table.specs.Map.{left_of, right_of, result_of};
ghost use Rattle.table.specs.Places.{EQUATION as no_result, Large, RESULT as result_region, RIGHT as right_region};

use crate::map::{EQUATION, LEFT, RESULT, RIGHT};
use meaning::{RecordNo, Tag};

// The first tag of a record.
pub fn left(work: &[u16], r: RecordNo) -> Tag
    requires { Large work.now × (r.0 ≤ most_records) }
    ensures { result.0 ≡ left_of work.now r.0 }
{
    Tag::of(work[LEFT + r.place()])
}

// Its second tag.
pub fn right(work: &[u16], r: RecordNo) -> Tag
    requires { Large work.now × (r.0 ≤ most_records) }
    ensures { result.0 ≡ right_of work.now r.0 }
{
    Tag::of(work[RIGHT + r.place()])
}

// Its result: a tag where the record is an application.
pub fn result(work: &[u16], r: RecordNo) -> Tag
    requires { Large work.now × (r.0 ≤ most_records) }
    ensures { result.0 ≡ result_of work.now r.0 }
{
    Tag::of(work[RESULT + r.place()])
}

// Whether a record is an equation.
pub fn is_equation(work: &[u16], r: RecordNo) -> bool
    requires { Large work.now × (r.0 ≤ most_records) }
    ensures { result ≡ eqb (result_of work.now r.0) no_result }
{
    result(work, r).number() == EQUATION
}

// The record of number r is a = b.
pub fn put_equation(work: &mut [u16], r: RecordNo, a: Tag, b: Tag)
    requires { Large work.old × (r.0 ≤ most_records) }
    ensures { work.new ≡ set (set (set work.old r.0 a.0) (right_region.at + r.0) b.0) (result_region.at + r.0) no_result }
{
    put_application(work, r, a, b, Tag::of(EQUATION));
}

// The record of number r is f(a, b) = c.
pub fn put_application(work: &mut [u16], r: RecordNo, a: Tag, b: Tag, c: Tag)
    requires { Large work.old × (r.0 ≤ most_records) }
    ensures { work.new ≡ set (set (set work.old r.0 a.0) (right_region.at + r.0) b.0) (result_region.at + r.0) c.0 }
{
    let k = r.place();
    work[LEFT + k] = a.number();
    work[RIGHT + k] = b.number();
    work[RESULT + k] = c.number();
}
