// The record table: a lent slice of 4,000 places, each a kind, three numbers and a sheet. Document 01, "What is lent, and each refusal".
// Rests on meaning. These are the only functions that touch a place of it; a longer table is accepted, and its rest is left alone.
#![tactic(auto)]

ghost use Rattle.std.specs.Prelude.{◌≡◌, ◌<◌, ◌≤◌, length, set, get_or};
ghost use Rattle.meaning.specs.Limits.{named_places};
ghost use Rattle.records.specs.Table.{blank, Blanked};

use meaning::{NO_TAG, Tag};

// The named places.
pub const NAMED: usize = meaning::NAMED_PLACES;

// A place of the table, as document 01 names it: the kinds stay its numbers. Kind 1 is the record a = b, with c zero; kind 2 is f(a, b) = c; kind 0 is no record, and then all is zero. The record's sheet is 0
// where it has none (document 02, No. 9).
#[derive(Clone, Copy, Debug, PartialEq, Eq)]
pub struct Record {
    pub kind: u16,
    pub a: Tag,
    pub b: Tag,
    pub c: Tag,
    pub sheet: u16,
}

// A place that holds no record.
pub const BLANK: Record = Record {
    kind: 0,
    a: NO_TAG,
    b: NO_TAG,
    c: NO_TAG,
    sheet: 0,
};

// The record at a place.
pub fn fetch(records: &[Record], i: usize) -> Record
    requires { i < length records.now }
    ensures { result ≡ get_or records.now i blank }
{
    records[i]
}

// A record is stored at a place.
pub fn store(records: &mut [Record], i: usize, r: Record)
    requires { i < length records.old }
    ensures { records.new ≡ set records.old i r }
{
    records[i] = r;
}

// The named places become zero.
pub fn clear(records: &mut [Record])
    requires { named_places ≤ length records.old }
    ensures { Blanked records.old records.new }
{
    records[..NAMED].fill(BLANK);
}
