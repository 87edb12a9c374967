// The sheets of a reason, found in the job by one walk beside the table's list, which rises. Document 02, No. 9. Rests on meaning, table, job_field and
// sheets_find.
#![tactic(auto)]

ghost use Rattle.std.specs.Prelude.{◌≡◌, length};
ghost use Rattle.job_field.specs.Items.{sheets_in};
ghost use Rattle.job_field.specs.Answer.{note_said, said};
ghost use Rattle.sheets_walk.specs.Walk.{sheets_at, first_sheet, Listed, Meeting, Turn, Gathered, Clear, Found};

use job_field::{Fault, Field, Line, behind, read};

// How many sheets a note has, and a field: one for each record that it stands for.
fn sheets_held(l: Line) -> u16
    ensures { result ≡ length (sheets_in (note_said l)) }
{
    match l {
        Line::Equation(_, _, _) => 1,
        Line::Application(_, _, _, _) => 1,
        Line::Differ(_, _) => 0,
    }
}

fn records_here(field: Result<Field, Fault>) -> u16
    ensures { result ≡ length (sheets_at (said field)) }
{
    match field {
        Ok(Field::Noted(l)) => sheets_held(l),
        _ => 0,
    }
}

// The sheet of a note, and of a field; 0 where it has none.
fn sheet_in(l: Line) -> u16
    ensures { result ≡ first_sheet (sheets_in (note_said l)) }
{
    match l {
        Line::Equation(_, _, h) => h,
        Line::Application(_, _, _, h) => h,
        Line::Differ(_, _) => 0,
    }
}

fn sheet_here(field: Result<Field, Fault>) -> u16
    ensures { result ≡ first_sheet (sheets_at (said field)) }
{
    match field {
        Ok(Field::Noted(l)) => sheet_in(l),
        _ => 0,
    }
}

// A field is passed, behind so many records: if it is the one at place i of the list, its sheet is filed. Says which place of the list is due then.
fn take_one(field: Result<Field, Fault>, work: &mut [u16], passed: usize, i: usize) -> usize
    requires { Meeting (said field) work.old passed i }
    ensures { Turn (said field) work.old passed i work.new result }
{
    let here = usize::from(records_here(field));
    let due = table::record_place(table::listed(work, i));
    if passed + here < due {
        return i;
    }
    sheets_find::file(work, usize::from(sheet_here(field)));
    i + 1
}

// The sheets of the first records of the list are filed.
fn file_listed(job: &[u8], work: &mut [u16], count: usize)
    requires { Listed job.now work.old count × Clear work.old }
    ensures { Gathered job.now work.old work.new count }
{
    let mut at = behind(job, 0);
    let mut passed: usize = 0;
    let mut i: usize = 0;
    while i < count {
        let field = read(job, at);
        i = take_one(field, work, passed, i);
        passed += usize::from(records_here(field));
        at = behind(job, at);
    }
}

// The distinct sheets of the first records of the list, rising and without 0, come to the table's sheets. Says how many they are.
pub fn find_sheets(job: &[u8], work: &mut [u16], count: usize) -> usize
    requires { Listed job.now work.old count }
    ensures { Found job.now work.old work.new count result }
{
    sheets_find::empty(work);
    file_listed(job, work, count);
    sheets_find::list_filed(work)
}
