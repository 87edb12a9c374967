// Reading in the harness profile: kind 02 is refused by 4, and otherwise everything is as in the other reading. The first field of kind 02 that the fields
// lead to is found by a walk of its own; that place and the other reading together are the reading of the profile. Document 02, No. 8. Rests on job_field.
#![tactic(auto)]

ghost use Rattle.std.specs.Prelude.{◌≡◌, suc, ◌≤◌, length};
ghost use Rattle.job_field.specs.Answer.{said};
ghost use Rattle.harness_read.specs.Profile.{marked, apply_from, ends_at, place_in};

use job_field::{Fault, Field, behind, read};

// The kind of an application.
const APPLICATION: u8 = 2;

// Whether a field of kind 02 begins at a place, with three bytes there.
fn is_application(job: &[u8], at: usize) -> bool
    ensures { result ≡ marked job.now at }
{
    if job.len() < 3 {
        return false;
    }
    if job.len() - 3 < at {
        return false;
    }
    if at == 0 {
        return false;
    }
    job[at] == APPLICATION
}

// Whether no other field stands behind it.
pub fn ends(field: Result<Field, Fault>) -> bool
    ensures { result ≡ ends_at (said field) }
{
    matches!(field, Ok(Field::End) | Err(_))
}

// The place of the first field of kind 02, or the job's length.
pub fn first_application(job: &[u8]) -> usize
    ensures { place_in (length job.now) result ≡ apply_from (suc (length job.now)) job.now 0 }
{
    let mut at: usize = 0;
    loop {
        if is_application(job, at) {
            return at;
        }
        if ends(read(job, at)) {
            return job.len();
        }
        at = behind(job, at);
    }
}
