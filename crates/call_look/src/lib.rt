// What the two calls begin and end with: lengths and job are looked at before anything is stored, and the work table is given back. Document 01, "What is
// lent, and each refusal". Rests on job_field, job_read, records, table and table_labels.
#![tactic(auto)]

ghost use Rattle.std.specs.Prelude.{◌≡◌, length, true, ◌≤◌};
ghost use Rattle.call_look.specs.Look.{Viewed, Looked};
ghost use Rattle.call_look.specs.Seen.{reason_number, reason_lent, refusal_of, unread_of, seen};
ghost use Rattle.job_field.specs.Reading.{longest};
ghost use Rattle.table.specs.Places.{Large};
ghost use Rattle.call_look.specs.Clear.{Cleared, Returned};

use job_field::{Fault, sheeted};
use job_read::{Refusal as Unread, read_job};

// Document 01's limits: the longest job, and the named places of the record table and of the work table.
pub const LONGEST: usize = meaning::LONGEST;

pub const LONGEST_SHEETED: usize = meaning::LONGEST_SHEETED;

pub const PLACES: usize = meaning::NAMED_PLACES;

pub const NAMED: usize = meaning::NAMED_NUMBERS;

// Why a call refuses, in the order of the documents' numbers.
#[derive(Clone, Copy, Debug, PartialEq, Eq)]
pub enum Reason {
    // The job is longer than the longest of its edition.
    JobTooLong,
    // Either table is shorter than named.
    TablesTooShort,
    // The reading refuses the job.
    Job(Fault),
    // The room is smaller than needed.
    RoomTooShort,
    // The report is unsound.
    ReportUnsound,
    // More passes change something than the limit allows.
    LimitSpent,
}

// The number that the documents give a reason.
impl From<Reason> for u8 {
    ghost from_gives = { λ r n. n ≡ reason_number r };

    fn from(reason: Reason) -> u8 {
        match reason {
            Reason::JobTooLong => 1,
            Reason::TablesTooShort => 2,
            Reason::Job(fault) => u8::from(fault),
            Reason::RoomTooShort => 9,
            Reason::ReportUnsound => 10,
            Reason::LimitSpent => 19,
        }
    }
}

// A refusal, with the place that it names: 0 where it names none.
#[derive(Clone, Copy, Debug, PartialEq, Eq)]
pub struct Refusal {
    pub reason: Reason,
    pub place: usize,
}

impl Refusal {
    // A refusal that names no place.
    pub fn of(reason: Reason) -> Refusal
        ensures { result ≡ refusal_of reason }
    {
        Refusal { reason, place: 0 }
    }

    // Whether the lengths are right, without which no table is touched.
    pub fn is_lent(&self) -> bool
        ensures { result ≡ reason_lent self.now.reason }
    {
        !matches!(self.reason, Reason::JobTooLong | Reason::TablesTooShort)
    }
}

// What the reading refuses.
impl From<Unread> for Refusal {
    ghost from_gives = { λ u r. r ≡ unread_of u };

    fn from(unread: Unread) -> Refusal {
        Refusal {
            reason: Reason::Job(unread.fault),
            place: unread.place,
        }
    }
}

// What is seen of a job that is accepted: N, the number of records, and the room that the report needs.
#[derive(Clone, Copy, Debug, PartialEq, Eq)]
pub struct Sight {
    pub size: usize,
    pub records: usize,
    pub needed: usize,
}

// Numbers 3 to 8, 11 to 13 and 17, in their order.
fn view(job: &[u8]) -> Result<Sight, Refusal>
    ensures { Viewed job.now (seen result) }
{
    let read = read_job(job)?;
    Ok(Sight {
        size: usize::from(read.head.size),
        records: usize::from(read.records),
        needed: read.room,
    })
}

// The longest job of the edition that the first byte tells.
fn longest_of(job: &[u8]) -> usize
    ensures { result ≡ longest job.now }
{
    if sheeted(job) {
        LONGEST_SHEETED
    } else {
        LONGEST
    }
}

// Numbers 1 to 8, in their order, for a job and tables of so many places and numbers.
pub fn look(job: &[u8], places: usize, numbers: usize) -> Result<Sight, Refusal>
    ensures { Looked job.now places numbers (seen result) }
{
    if longest_of(job) < job.len() {
        return Err(Refusal::of(Reason::JobTooLong));
    }
    if places < PLACES {
        return Err(Refusal::of(Reason::TablesTooShort));
    }
    if numbers < NAMED {
        return Err(Refusal::of(Reason::TablesTooShort));
    }
    view(job)
}

// How the work table is given back: its named places are zero after every answer but a refusal for lengths alone.

// The named places of the work table become zero.
fn clear(work: &mut [u16])
    requires { Large work.old }
    ensures { Cleared work.old work.new }
{
    work[0..NAMED].fill(0);
}

// Where the lengths were right the named places become zero; otherwise nothing changes.
pub fn give_back(work: &mut [u16], lent: bool)
    requires { lent ≡ true → Large work.old }
    ensures { Returned lent work.old work.new }
{
    if lent {
        clear(work);
    }
}
