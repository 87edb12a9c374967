// The map of the work table: where each region stands, and what marks a number in it.
//
//      0  LEFT     4,001  by record number   the record's first tag            (place 0 is no record's)
//  4,001  RIGHT    4,001  by record number   its second tag
//  8,002  RESULT   4,001  by record number   its result, or EQUATION
// 12,003  PARENT   1,000  by tag             the tag it was linked under
// 13,003  AGE      1,000  by tag             the age of the join that did so, or LEADS and more
// 14,003  FIRST    1,000  by age             the join's first record
// 15,003  SECOND   1,000  by age             its second, or 0 for the join of an equation
// 16,003  WHEN     1,000  by age             the record at which it was made
// 17,003  LIST     4,000  by place           record numbers
// 21,003  LABEL    1,000  by tag             scratch of the closure: the label
// 22,003  NEXT     4,000  by place           scratch of the closure: the chains of the buckets
// 26,003  HEADS    4,093  by bucket          scratch of the closure: where each chain begins
// 30,096  MARKS    1,000  by age             1 where the join is taken into a reason
// 31,096  SAVED    1,000  by tag             while leaders are looked up, the seat of each label
// 32,096  SINCE      500  by pair            the record at which the tags of a pair that must differ became equal, or a number above all records
// 32,596  spare up to NAMED
//
// While all records are closed, neither list nor marks nor saved labels are needed, and other regions stand from LIST to the end, with LABEL where it is:
//
// 17,003  MORE     4,000  by place           the last place before it whose record has the same first tag
// 22,003  OTHER    4,000  by place           the same of the second tag
// 26,003  CHAIN    4,000  by place           one more than its chain's next; for a record that waits to be met, WAITS more than the next that does
// 30,003  BUCKETS    761  by bucket          where each chain begins
// 30,764  USES     1,000  by tag             the last place whose record has it for its first tag
// 31,764  SHARES   1,000  by tag             the same of the second tag
//
// While spare records are taken out, neither marks nor saved labels are needed, and other regions stand behind the front of the list, with LABEL where it is:
//
// 17,003  LIST     2,000  by place           record numbers, or 0 where one was left out
// 19,003  MEMBER   1,000  by tag             the next tag of its class
// 20,003  WEIGHT   1,000  by tag             of a label: how heavy its class is. It only tells which of two is lighter: any number is right
// 22,003  TRAIL    1,000  by join            the label that went
// 23,003  ENDS     1,000  by tag             the last place whose record has it for its first tag
// 24,003  TAILS    1,000  by tag             the same of the second tag
// 25,003  BEFORE   2,000  by place           the last place before it whose record has the same first tag
// 27,003  PRIOR    2,000  by place           the same of the second tag
// 29,003  QUEUE    2,000  by place           0: not in; 1: in; 2 and more: in, and waits, two more than the next that does
//
// While the sheets of a reason are found, the reason stands in the front of the list, and these stand behind it:
//
// 19,003  SHEETS   2,000  by place           the sheets, rising
// 21,003  FILED   10,001  by sheet           1 where the sheet is filed      (place 0 is no sheet's)
// 31,004  HUNDREDS   100  by hundred         1 where the places of these hundred sheets are in use
//
// A tag that leads its class is under none: in its place of PARENT stands the largest tag of its class, and in that of AGE one more than LEADS for each other tag.

pub const LEFT: usize = 0;

pub const RIGHT: usize = 4001;

pub const RESULT: usize = 8002;

pub const PARENT: usize = 12003;

pub const AGE: usize = 13003;

pub const FIRST: usize = 14003;

pub const SECOND: usize = 15003;

pub const WHEN: usize = 16003;

pub const LIST: usize = 17003;

pub const LABEL: usize = 21003;

pub const NEXT: usize = 22003;

pub const HEADS: usize = 26003;

pub const MARKS: usize = 30096;

pub const SAVED: usize = 31096;

pub const SINCE: usize = 32096;

pub const MORE: usize = 17003;

pub const OTHER: usize = 22003;

pub const CHAIN: usize = 26003;

pub const BUCKETS: usize = 30003;

pub const USES: usize = 30764;

pub const SHARES: usize = 31764;

// The places of the front of the list, and what stands behind it while spare records are taken out.
pub const FRONT: usize = 2 * meaning::MOST_TAGS;

pub const MEMBER: usize = 19003;

pub const WEIGHT: usize = 20003;

pub const TRAIL: usize = 22003;

pub const ENDS: usize = 23003;

pub const TAILS: usize = 24003;

pub const BEFORE: usize = 25003;

pub const PRIOR: usize = 27003;

pub const QUEUE: usize = 29003;

pub const SHEETS: usize = 19003;

pub const FILED: usize = 21003;

pub const HUNDREDS: usize = 31004;

// The sheets of a hundred, and how many hundreds there are.
pub const HUNDRED: usize = 100;

pub const HUNDRED_COUNT: usize = 100;

// The result of an equation, which is no tag; the age of a tag that leads its class; the named places.
pub const EQUATION: u16 = 65535;

pub const LEADS: u16 = meaning::MOST_TAGS as u16;

pub const NAMED: usize = meaning::NAMED_NUMBERS;

// What marks a record that waits; links are at most 4,000.
pub const WAITS: usize = meaning::MOST_RECORDS + 2;
