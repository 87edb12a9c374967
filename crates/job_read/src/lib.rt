// A whole job read: it is accepted, or refused by number and place. Document 01, "What is lent, and each refusal", numbers 3 to 8, and document 02, No. 2 and 9,
// numbers 11 to 13 and 17. Its fields come from the reader in job_field, and job_limits tests each. Rests on job_field and job_limits.
#![tactic(auto)]

ghost use Rattle.std.specs.Prelude.{◌≡◌, ◌+◌, ◌*◌, ◌-◌, ◌≤◌, ◌<◌, min, length, cond, MatchResult};
ghost use Rattle.meaning.specs.Limits.{most_tags};
ghost use Rattle.job_field.specs.Items.{room_for};
ghost use Rattle.job_field.specs.Answer.{number_of, question_said, head_said, field_said, said};
ghost use Rattle.job_field.specs.Reading.{bad, behind as behindEnd, behind_at, length_at, offset_of, checked, field_standing, reading};
ghost use Rattle.job_limits.specs.Counts.{moment_of};
ghost use Rattle.job_read.specs.Summary.{told, summary};
ghost use Rattle.job_read.specs.Turns.{head_seen, met, tally, Going, Turned};

use job_field::{Fault, Field, Head, Query, behind, place_of, read};
use job_limits::{Counts, allowed, past_note, past_question};

// The room that the report needs for the totals, and for an ask.
const ROOM_OF_TOTALS: usize = 7;

const ROOM_OF_ASK: usize = 7;

// Why a job is refused, and where.
#[derive(Clone, Copy, Debug, PartialEq, Eq)]
pub struct Refusal {
    pub fault: Fault,
    pub place: usize,
}

// What is known of a job that is accepted: what its first field says, how many records and questions it has, and the room that its report needs.
#[derive(Clone, Copy, Debug, PartialEq, Eq)]
pub struct Accepted {
    pub head: Head,
    pub records: u16,
    pub questions: u16,
    pub room: usize,
}

// How far reading has come: the place of the next field, what the first one said, both numbers 0 before it, what has been counted, and the room needed so far.
#[derive(Clone, Copy, Debug, Default, PartialEq, Eq)]
pub struct Seen {
    pub at: usize,
    pub head: Head,
    pub counts: Counts,
    pub room: usize,
}

// The most numbers that a reason can have after so many records: min(R, 2(N-1)).
fn most_numbers(size: u16, records: u16) -> usize
    ensures { result ≡ min records (2 * (size - 1)) }
{
    usize::from(records).min(2 * usize::from(size).saturating_sub(1))
}

// The room for the sheets of a reason of so many numbers, in edition 2 alone.
fn sheet_room(sheeted: bool, most: usize) -> usize
    requires { most ≤ 2 * most_tags }
    ensures { (result ≡ cond sheeted (3 + 2 * most) 0) × (result ≤ 3 + 2 * most) }
{
    if sheeted { 3 + 2 * most } else { 0 }
}

// The room that a question needs at its moment.
fn room_of(head: Head, c: Counts, q: Query) -> usize
    requires { head.size ≤ most_tags }
    ensures { (result ≡ room_for (head_said head) (moment_of c) (question_said q)) × (result ≤ 8 * most_tags) }
{
    let most = most_numbers(head.size, c.records);
    let sheets = sheet_room(head.sheeted, most);
    match q {
        Query::Ask(_, _) => ROOM_OF_ASK,
        Query::Explain(_, _) => 3 + 2 * most + sheets,
        Query::Broken => 5 + 2 * most + sheets,
        Query::Why(_, _) => 3 + 2 * usize::from(head.size),
    }
}

// Behind the end field nothing may stand.
fn ended(job: &[u8], s: Seen) -> Result<Accepted, Refusal>
    requires going { Going job.now s }
    requires at_in_bounds { behind_at job.now s.at ≤ length job.now }
    ensures { told result ≡ tally (moment_of s.counts) s.room (behindEnd job.now (head_seen s) (behind_at job.now s.at)) }
{
    let place = behind(job, s.at);
    if place < job.len() {
        return Err(Refusal {
            fault: Fault::Trailing,
            place,
        });
    }
    Ok(Accepted {
        head: s.head,
        records: s.counts.records,
        questions: s.counts.questions,
        room: s.room + ROOM_OF_TOTALS,
    })
}

// The field that reading has come to, within its limits.
#[tactic(auto, unfolding(job_field::specs::Reading::checked))]
fn field_met(job: &[u8], s: Seen) -> Result<Field, Fault>
    ensures { said result ≡ met job.now s }
{
    allowed(s.head, s.counts, read(job, s.at))
}

// The same, with the place of its refusal.
fn field_placed(job: &[u8], s: Seen) -> Result<Field, Refusal>
    requires { s.at ≤ length job.now }
    ensures { MatchResult result (λ f. met job.now s ≡ field_said f) (λ e. (met job.now s ≡ bad (number_of e.fault)) × (e.place ≡ s.at + offset_of (length_at job.now s.at) (number_of e.fault))) }
{
    match field_met(job, s) {
        Ok(field) => Ok(field),
        Err(fault) => Err(Refusal {
            fault,
            place: place_of(job, s.at, fault),
        }),
    }
}

// One field of the job, and what has been seen behind it: nothing more behind the end field.
fn advance(job: &[u8], s: Seen) -> Result<Option<Seen>, Refusal>
    requires { Going job.now s }
    ensures { Turned job.now s result }
{
    let next = Seen {
        at: behind(job, s.at),
        ..s
    };
    let field = field_placed(job, s)?;
    match field {
        Field::Header(head) => Ok(Some(Seen { head, ..next })),
        Field::Noted(l) => Ok(Some(Seen {
            counts: past_note(s.counts, l),
            ..next
        })),
        Field::Posed(q) => Ok(Some(Seen {
            counts: past_question(s.counts, q),
            room: s.room + room_of(s.head, s.counts, q),
            ..next
        })),
        Field::End => Ok(None),
    }
}

// Reads a whole job. The refusals 3 to 8, 11 to 13 and 17, or what is known of a job that is accepted.
pub fn read_job(job: &[u8]) -> Result<Accepted, Refusal>
    ensures { told result ≡ summary (reading job.now) }
{
    let mut seen = Seen::default();
    while let Some(next) = advance(job, seen)? {
        seen = next;
    }
    ended(job, seen)
}
