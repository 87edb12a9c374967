// Taking out the spare records by halves: with the one half in, the other is halved, and then the other way round; where the two tags are equal by what
// is in, the rest goes. What came in goes out again, and the labels are as they were. Document 01, "Reasons". Rests on list_add and list_rings.
#![tactic(auto)]

ghost use Rattle.std.specs.Prelude.{◌+◌, ◌≤◌, ◌<◌};
ghost use Rattle.table.specs.Places.{Large, QUEUE, front_size};
ghost use Rattle.list_rings.specs.Links.{Standing};
ghost use Rattle.list_add.specs.Filing.{Listing};
ghost use Rattle.list_halve.specs.Halving.{Backed, Ready, Done, Blanked, Sifting, Sifted, Entailing};

use list_add::Task;
use meaning::Tag;

// What is tried: whether the tags s and t are equal by the records of the list, or by fewer of them.
#[derive(Clone, Copy)]
pub struct Trial {
    pub task: Task,
    pub s: Tag,
    pub t: Tag,
}

// The places lo..hi of a region by place become 0.
fn blank_each(work: &mut [u16], region: usize, lo: usize, hi: usize)
    requires { Large work.old × (region ≤ QUEUE.at) × (lo ≤ hi) × (hi ≤ front_size) }
    ensures { Blanked region work.old work.new lo hi }
{
    work[region + lo..region + hi].fill(0);
}

// The places lo..hi go out again, and the joins from number k on are taken back, of j that were made.
fn go_back(work: &mut [u16], lo: usize, hi: usize, k: usize, j: usize)
    requires { Standing work.old j × (k ≤ j) × (lo ≤ hi) × (hi ≤ front_size) }
    ensures { Backed work.old work.new lo hi k j }
{
    blank_each(work, table::QUEUE, lo, hi);
    list_rings::back(work, k, j);
}

fn middle(lo: usize, hi: usize) -> usize
    requires { (lo + 1 < hi) × (hi ≤ front_size) }
    ensures { (lo < result) × (result < hi) }
{
    (lo + hi) / 2
}

// Leaves out the spare records of the places lo..hi.
fn halve(work: &mut [u16], q: Trial, lo: usize, hi: usize, k: usize)
    requires { Ready q.task.size q.task.len q.task.n q.s.0 q.t.0 work.old lo hi k }
    ensures { Done q.task.len q.task.n q.s.0 q.t.0 work.old work.new lo hi k }
{
    if table_labels::level(work, q.s, q.t) {
        blank_each(work, table::LIST, lo, hi);
        return;
    }
    if lo + 1 < hi {
        let mid = middle(lo, hi);
        let i = list_add::add_each(work, q.task, lo, mid, k);
        halve(work, q, mid, hi, i);
        go_back(work, lo, mid, k, i);
        let j = list_add::add_each(work, q.task, mid, hi, k);
        halve(work, q, lo, mid, j);
        go_back(work, mid, hi, k, j);
    }
}

// Leaves out the spare records of all n places, from any table that lists them.
pub fn sift(work: &mut [u16], q: Trial)
    requires { Sifting q.task.size q.task.len q.task.n q.s.0 q.t.0 work.old }
    ensures { Sifted q.task.len q.task.n q.s.0 q.t.0 work.old work.new }
{
    list_add::begin(work, q.task);
    halve(work, q, 0, q.task.n, 0);
}

// Whether s and t are equal by exactly the records of the n places.
pub fn entails(work: &mut [u16], q: Trial) -> bool
    requires { Listing q.task.size q.task.len q.task.n work.old × (q.s.0 < q.task.size) × (q.t.0 < q.task.size) }
    ensures { Entailing q.task.len q.task.n q.s.0 q.t.0 work.old work.new result }
{
    list_add::begin(work, q.task);
    list_add::add_each(work, q.task, 0, q.task.n, 0);
    table_labels::level(work, q.s, q.t)
}
