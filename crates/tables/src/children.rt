// The children of each run: counted, then placed.
ghost use Rattle.std.specs.Prelude.{◌≡◌, ℕ, ◌+◌, ◌<◌, ◌≤◌, ◌^◌, length, get_or};
ghost use Rattle.lists.specs.Lists.{concat};
ghost use Rattle.model.specs.Limits.{max_starts};
ghost use Rattle.tables.specs.Jagged.{Below};
ghost use Rattle.tables.specs.Indexed.{Summed};
ghost use Rattle.tables.specs.Counted.{tally, Counted, Countable, Placeable, Kids, put_all};

use crate::jagged::Jagged;
use crate::words::sum_up;

// One child more for each of the runs ps.
fn count_parents(starts: &mut [u32], ps: &[u32])
    requires countable { Countable ps.now starts.old }
    requires few { length ps.now ≤ 2 ^ 20 }
    requires small { (k : ℕ) → get_or starts.old k 0 ≤ 2 ^ 20 }
    ensures { Counted ps.now starts.old starts.new }
{
    for p in ps {
        starts[*p as usize + 1] += 1;
    }
}

// How many children each run has, one place on. That a list has a place more than the runs are is a clause, here and in four functions more: a
// type of two lists, one longer than the other, would ask it where each is made.
fn count_all(starts: &mut [u32], parents: &Jagged)
    requires sized { length starts.old ≡ length parents.now + 1 }
    requires below { Below parents.now }
    requires few { length (concat parents.now) ≤ 2 ^ 20 }
    ensures short { length starts.new ≤ max_starts }
    ensures first { get_or starts.new 0 0 ≡ 0 }
    ensures counted { (r : ℕ) → r < length parents.now → get_or starts.new (r + 1) 0 ≡ tally parents.now r (length parents.now) }
    ensures small { (k : ℕ) → get_or starts.new k 0 ≤ 2 ^ 20 }
{
    starts.fill(0);
    // By number: rows are cut from the items as they are asked for, and stand in no slice to go over
    for r in 0..parents.len() {
        count_parents(starts, parents.row(r));
    }
}

// Where each run's children begin.
pub fn starts_of(starts: &mut [u32], parents: &Jagged)
    requires sized { length starts.old ≡ length parents.now + 1 }
    requires below { Below parents.now }
    requires few { length (concat parents.now) ≤ 2 ^ 20 }
    ensures { Summed (λ r. tally parents.now r (length parents.now)) (length parents.now) starts.new }
{
    count_all(starts, parents);
    sum_up(starts);
}

// Run r put among the children of each of its parents.
fn put_child(children: &mut [u32], next: &mut [u32], ps: &[u32], r: u32)
    requires few { length children.old ≤ 2 ^ 20 }
    requires room { Placeable ps.now (next.old, children.old) }
    ensures { (next.new, children.new) ≡ put_all r (next.old, children.old) ps.now }
{
    for p in ps {
        let p = *p as usize;
        children[next[p] as usize] = r;
        next[p] += 1;
    }
}

// Each run's children, in run order; `next` begins as where they start.
pub fn children_of(children: &mut [u32], next: &mut [u32], parents: &Jagged)
    requires sized { length next.old ≡ length parents.now + 1 }
    requires below { Below parents.now }
    requires room { length (concat parents.now) ≤ length children.old }
    requires few { length children.old ≤ 2 ^ 20 }
    requires summed { Summed (λ r. tally parents.now r (length parents.now)) (length parents.now) next.old }
    ensures { Kids parents.now (length parents.now) children.new }
{
    for r in 0..parents.len() {
        put_child(children, next, parents.row(r), r as u32);
    }
}
