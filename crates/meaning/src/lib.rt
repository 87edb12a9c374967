// The two numbers of document 01, "Tags, records, following": both fill two bytes and neither may stand for the other. Their fields are
// private, so that the compiler keeps them apart: a number is opened by `number` and `place` and closed by `of`, and compared by what is derived; .ci/openings lists the crates
// that may. What they mean, and the mathematics of it, is in specs/ and proofs/. Rests on nothing.
#![tactic(auto)]

ghost use Rattle.std.specs.Prelude.{◌≡◌, ltb};

// The number of a tag: a unit, a probe or a scaling, 0 to N-1.
#[derive(Clone, Copy, Debug, PartialEq, Eq, PartialOrd, Ord)]
pub struct Tag(u16);

// What stands for a tag in a place that is blank.
pub const NO_TAG: Tag = Tag(0);

impl Tag {
    // The tag of a number.
    pub fn of(n: u16) -> Tag
        ensures { result.0 ≡ n }
    {
        Tag(n)
    }

    // Its number, and the same as a place in a region by tag.
    pub fn number(self) -> u16
        ensures { result ≡ self.0 }
    {
        self.0
    }

    pub fn place(self) -> usize
        ensures { result ≡ self.0 }
    {
        self.0 as usize
    }

    // Whether it is one of so many.
    pub fn is_of(self, size: u16) -> bool
        ensures { result ≡ ltb self.0 size }
    {
        self.0 < size
    }
}

// The number of a record: a line of the job, from 1. 0 is no record.
#[derive(Clone, Copy, Debug, PartialEq, Eq, PartialOrd, Ord)]
pub struct RecordNo(u16);

pub const NO_RECORD: RecordNo = RecordNo(0);

impl RecordNo {
    // The record of a number.
    pub fn of(n: u16) -> RecordNo
        ensures { result.0 ≡ n }
    {
        RecordNo(n)
    }

    // Its number, and the same as a place in a column.
    pub fn number(self) -> u16
        ensures { result ≡ self.0 }
    {
        self.0
    }

    pub fn place(self) -> usize
        ensures { result ≡ self.0 }
    {
        self.0 as usize
    }
}

// The documents' limits (specs/Limits.antt has them for what is promised): the longest job, the most tags, records, questions and pairs that must
// differ, and the named places of the record table and of the work table.
pub const LONGEST: usize = 46510;

// That of edition 2.
pub const LONGEST_SHEETED: usize = 54510;

pub const MOST_TAGS: usize = 1000;

pub const MOST_RECORDS: usize = 4000;

pub const MOST_QUESTIONS: usize = 1000;

pub const MOST_DIFFERS: usize = 500;

pub const MOST_SHEET: usize = 9999;

pub const NAMED_PLACES: usize = 4000;

pub const NAMED_NUMBERS: usize = 32768;
