// Where the search for the reason of a plain harness sheet stands in the work table. Document 02, No. 8. Rests on table, whose part for reasons (`scratch`)
// it divides anew. The table holds plain numbers, so the functions here wrap and unwrap Tag and RecordNo.
//
// LIST                          4,001  by record number   the record before it with the same first tag, or 0
//   + 4,001                     4,001  by record number   the same of the second tag
//   + 8,002                     1,000  by tag             the last record that has it for its first tag, or 0
//   + 9,002                     1,000  by tag             the same of the second tag
//   + 10,002                    1,000  by place           the tags in the order in which they were found
// MARKS                         1,000  by tag             the level, or UNFOUND
// SAVED                         1,000  by tag             the last record of the best way to it
//
// When the search is over, the way back is written at the front of LIST, over the first of these.
#![tactic(auto, using(table::proofs::Frame::seen_at))]

ghost use Rattle.std.specs.Prelude.{◌≡◌, ◌+◌, ◌≤◌, ◌<◌, set};
ghost use Rattle.meaning.specs.Limits.{most_records, most_tags};
ghost use Rattle.table.specs.Places.{Large};
ghost use Rattle.harness_table.specs.Levels.{LEVELS, LASTS, FOUND as found_region, link_at, start_at, lev_in, last_in, link_in, start_in, found_in};

use meaning::{RecordNo, Tag};

const COLUMN: usize = meaning::MOST_RECORDS + 1;

const STARTS: usize = table::LIST + 2 * COLUMN;

const FOUND: usize = STARTS + 2 * meaning::MOST_TAGS;

// The level of a tag that was not found.
pub const UNFOUND: usize = meaning::MOST_RECORDS;

// The level of a tag.
pub fn level(work: &[u16], x: Tag) -> usize
    requires { Large work.now × (x.0 < most_tags) }
    ensures { result ≡ lev_in work.now x.0 }
{
    usize::from(work[table::MARKS + x.place()])
}

pub fn put_level(work: &mut [u16], x: Tag, d: usize)
    requires { Large work.old × (x.0 < most_tags) × (d ≤ most_records) }
    ensures { work.new ≡ set work.old (LEVELS.at + x.0) d }
{
    work[table::MARKS + x.place()] = d as u16;
}

// The last record of the best way to a tag.
pub fn last_record(work: &[u16], x: Tag) -> RecordNo
    requires { Large work.now × (x.0 < most_tags) }
    ensures { result.0 ≡ last_in work.now x.0 }
{
    RecordNo::of(work[table::SAVED + x.place()])
}

pub fn put_last_record(work: &mut [u16], x: Tag, r: RecordNo)
    requires { Large work.old × (x.0 < most_tags) }
    ensures { work.new ≡ set work.old (LASTS.at + x.0) r.0 }
{
    work[table::SAVED + x.place()] = r.number();
}

// Where the lists of uses lead on, by record, and begin, by tag. They stay beside the lists of uses of table: these lead on by place, with one more for a link.
fn links(second: bool) -> usize
    ensures { result ≡ link_at second }
{
    if second {
        return table::LIST + COLUMN;
    }
    table::LIST
}

fn starts(second: bool) -> usize
    ensures { result ≡ start_at second }
{
    if second {
        return STARTS + meaning::MOST_TAGS;
    }
    STARTS
}

// The last record that has a tag for its first (or second), or none.
pub fn last_use(work: &[u16], second: bool, x: Tag) -> RecordNo
    requires { Large work.now × (x.0 < most_tags) }
    ensures { result.0 ≡ start_in second work.now x.0 }
{
    RecordNo::of(work[starts(second) + x.place()])
}

// The one before a record, for its tag.
pub fn use_before(work: &[u16], second: bool, r: RecordNo) -> RecordNo
    requires { Large work.now × (r.0 ≤ most_records) }
    ensures { result.0 ≡ link_in second work.now r.0 }
{
    RecordNo::of(work[links(second) + r.place()])
}

// No record has a tag.
pub fn clear_use(work: &mut [u16], second: bool, x: Tag)
    requires { Large work.old × (x.0 < most_tags) }
    ensures { work.new ≡ set work.old (start_at second + x.0) 0 }
{
    work[starts(second) + x.place()] = 0;
}

// A record is the last that has a tag, and before it is the one that was.
pub fn put_use(work: &mut [u16], second: bool, x: Tag, r: RecordNo)
    requires { Large work.old × (x.0 < most_tags) × (r.0 ≤ most_records) }
    ensures { work.new ≡ set (set work.old (link_at second + r.0) (start_in second work.old x.0)) (start_at second + x.0) r.0 }
{
    let at = starts(second) + x.place();
    work[links(second) + r.place()] = work[at];
    work[at] = r.number();
}

// The tags in the order in which they were found.
pub fn found(work: &[u16], i: usize) -> Tag
    requires { Large work.now × (i < most_tags) }
    ensures { result.0 ≡ found_in work.now i }
{
    Tag::of(work[FOUND + i])
}

pub fn put_found(work: &mut [u16], i: usize, x: Tag)
    requires { Large work.old × (i < most_tags) }
    ensures { work.new ≡ set work.old (found_region.at + i) x.0 }
{
    work[FOUND + i] = x.number();
}
