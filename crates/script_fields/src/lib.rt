// The table before anything is read, the fields of the commands, and the limits of a job. Document 02, No. 4.
#![tactic(auto)]

ghost use Rattle.std.specs.Prelude.{◌≡◌, ℕ, ◌+◌, ◌≤◌, ◌<◌, length};
ghost use Rattle.meaning.specs.Following.{eq};
ghost use Rattle.script_terms.specs.Flat.{noted, differing, checking};
ghost use Rattle.script_meaning.specs.Reading.{with_record, with_differ, with_check};
ghost use Rattle.script_fields.specs.Fields.{Begun, Notes, fitting};

use script_shelf::{Counts, Field, note_field, store};

// Nothing is read yet.
pub fn begin(work: &mut [u16]) -> Counts
    requires { 32768 ≤ length work.old }
    ensures { Begun work.old work.new result }
{
    for key in 0..script_shelf::KEYS {
        store(work, script_shelf::NAMES, key, 0);
        store(work, script_shelf::FILES, key, 0);
    }
    Counts {
        symbols: 0,
        parts: 0,
        records: 0,
        differs: 0,
        checks: 0,
        fields: 0,
    }
}

// The 01 of an equality.
pub fn note_equal(work: &mut [u16], counts: Counts, a: u16, b: u16) -> Counts
    requires { (32768 ≤ length work.old) × (counts.fields ≤ 5500) × (counts.records ≤ 5500) }
    ensures { Notes work.old work.new counts result (noted (eq a b)) with_record }
{
    note_field(work, counts.fields, Field::Equal(a, b));
    Counts {
        records: counts.records + 1,
        fields: counts.fields + 1,
        ..counts
    }
}

// The 05 of a negated equality.
pub fn note_differ(work: &mut [u16], counts: Counts, a: u16, b: u16) -> Counts
    requires { (32768 ≤ length work.old) × (counts.fields ≤ 5500) × (counts.differs ≤ 5500) }
    ensures { Notes work.old work.new counts result (differing a b) with_differ }
{
    note_field(work, counts.fields, Field::Differing(a, b));
    Counts {
        differs: counts.differs + 1,
        fields: counts.fields + 1,
        ..counts
    }
}

// The 06 of a check-sat.
pub fn note_check(work: &mut [u16], counts: Counts) -> Counts
    requires { (32768 ≤ length work.old) × (counts.fields ≤ 5500) × (counts.checks ≤ 5500) }
    ensures { Notes work.old work.new counts result checking with_check }
{
    note_field(work, counts.fields, Field::Check);
    Counts {
        checks: counts.checks + 1,
        fields: counts.fields + 1,
        ..counts
    }
}

// Whether the job is within its limits.
#[tactic(auto, unfolding(crate::specs::Fields::fitting))]
pub fn fits(counts: Counts) -> bool
    ensures { result ≡ fitting counts }
{
    usize::from(counts.symbols) + usize::from(counts.parts) <= 1000
        && counts.records <= 4000
        && counts.differs <= 500
        && counts.checks <= 1000
}
