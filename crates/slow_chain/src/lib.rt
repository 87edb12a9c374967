// What a pass of the slow engine reads and writes in the lent work table: the labels that are to come, which stand where labels are saved, and the chains
// by which an application is found by its arguments' labels of now. Document 02, No. 12. Rests on table (where things stand) and table_labels (labels and keys).
#![tactic(auto)]

ghost use Rattle.std.specs.Prelude.{◌≡◌, suc, ◌+◌, ◌*◌, ◌%◌, ◌≤◌, ◌<◌, length, set};
ghost use Rattle.meaning.specs.Limits.{most_records, most_tags, named_numbers};
ghost use Rattle.table.specs.Map.{next_of, head_of, saved_of};
ghost use Rattle.table.specs.Places.{HEADS, Large, NEXT as next_region, head_count};
ghost use Rattle.table_labels.specs.Chain.{as_link};
ghost use Rattle.table_labels.specs.Parts.{Own};
ghost use Rattle.slow_chain.specs.Parts.{Preserved, Restored, Cleared, NewLabelled};
ghost use Rattle.slow_chain.specs.Places.{key_of, link_in, Finding};

use meaning::Tag;
use table::{LABEL, MARKS, NEXT, SAVED, SINCE};
use table_labels::Chains;
pub use table_labels::number;

// The number of buckets.
pub const HEAD_COUNT: usize = table::MARKS - table::HEADS;

// The labels to come begin as the labels.
pub fn save(work: &mut [u16])
    requires { Large work.old }
    ensures { Preserved work.old work.new }
{
    work.copy_within(LABEL..NEXT, SAVED);
}

// The labels are those that were to come.
pub fn restore(work: &mut [u16])
    requires { Large work.old }
    ensures { Restored work.old work.new }
{
    work.copy_within(SAVED..SINCE, LABEL);
}

// The label to come hi becomes lo for every tag. Only the job's tags, those below `size`, can have another's label.
pub fn merge(work: &mut [u16], size: usize, lo: Tag, hi: Tag)
    requires { Large work.old × (size ≤ most_tags) × (hi.0 < size) × Own size (saved_of work.old) }
    ensures { NewLabelled work.old work.new lo.0 hi.0 }
{
    table_labels::rename(&mut work[SAVED..SAVED + size], hi, lo);
}

// No place stands in a chain.
pub fn clear(work: &mut [u16])
    requires { Large work.old }
    ensures { Cleared work.old work.new }
{
    work[NEXT..MARKS].fill(0);
}

// Place i goes to the head of a bucket's chain.
pub fn insert(work: &mut [u16], b: usize, i: usize)
    requires { Large work.old × (b < head_count) × (i < most_records) × (head_of work.old b ≤ most_records) }
    ensures { work.new ≡ set (set work.old (next_region.at + i) (head_of work.old b)) (HEADS.at + b) (i + 1) }
{
    let old = table::head(work, b);
    table::put_next(work, i, old);
    table::put_head(work, b, i + 1);
}

// The chains of a pass.
struct Met;

impl Chains for Met {
    ghost leads = { λ w. next_of w };

    fn next(work: &[u16], j: usize) -> usize {
        table::next(work, j)
    }
}

// Where the record at a place belongs by its key: the bucket, and the first place in it whose record has the same key.
#[derive(Clone, Copy)]
pub struct Spot {
    pub bucket: usize,
    pub place: Option<usize>,
}

// The record at place i is looked up by its arguments' labels.
pub fn find(work: &[u16], size: usize, len: usize, i: usize) -> Spot
    requires { Finding size len work.now i }
    ensures { (result.bucket ≡ key_of work.now i % head_count) × (as_link result.place ≡ link_in work.now i) }
{
    let r = number(i);
    let x = table_labels::key(work, r);
    let bucket = x % HEAD_COUNT;
    let from = table::head(work, bucket);
    let place = table_labels::seek::<Met>(work, from, x);
    Spot { bucket, place }
}
