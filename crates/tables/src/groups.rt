// Rows of numbers in arrays of their own, as the parents of a range's runs are, numbered within it, or the runs' children.
ghost use Rattle.std.specs.Prelude.{◌≡◌, ◌+◌, ◌-◌, ◌<◌, ◌≤◌, length, replicate};
ghost use Rattle.lists.specs.Lists.{concat};
ghost use Rattle.model.specs.Limits.{max_entries, max_starts};
ghost use Rattle.tables.specs.Jagged.{rows_in, Lies, Below};
ghost use Rattle.tables.specs.Gather.{put_parent, put_parents};
ghost use Rattle.tables.specs.Laid.{grouped, shares_of, Sound};

use crate::jagged::Jagged;
use model::{MAX_ENTRIES, MAX_STARTS};

// Where each run's items begin and the last run's end, and the items. Arrays of fixed size, since no heap is used.
#[derive(Drop)]
pub struct Groups {
    pub starts: [u32; MAX_STARTS],
    pub items: [u32; MAX_ENTRIES],
}

// A parent of the range whose first run is a, less a, stored at `at`; one before the range is dropped.
fn put_parent(items: &mut [u32], at: usize, p: u32, a: u32) -> usize
    requires { at < length items.old }
    ensures { (result, items.new) ≡ put_parent a (at, items.old) p }
{
    if p < a {
        return at;
    }
    items[at] = p - a;
    at + 1
}

// So each of ps, one after another.
fn put_parents(items: &mut [u32], at: usize, ps: &[u32], a: u32) -> usize
    requires { at + length ps.now ≤ length items.old }
    ensures { (result, items.new) ≡ put_parents a (at, items.old) ps.now }
{
    let mut to = at;
    for p in ps {
        to = put_parent(items, to, *p, a);
    }
    to
}

// The parents of the runs from run a on, of those of all runs: where each run's begin and the last run's end, and the parents.
pub fn gather(starts: &mut [u32], items: &mut [u32], all: &Jagged, a: u32)
    requires from { a ≤ length all.now }
    requires below { Below all.now }
    requires starts { length all.now - a < length starts.old }
    requires items { length (concat all.now) ≤ length items.old }
    ensures grouped { grouped starts.new items.new (length all.now - a) ≡ shares_of all.now a (length all.now - a) }
    ensures sound { Sound starts.new items.new (length all.now - a) }
{
    let n = all.len() - a as usize;
    starts[0] = 0;
    let mut at = 0;
    for j in 0..n {
        at = put_parents(items, at, all.row(a as usize + j), a);
        starts[j + 1] = at as u32;
    }
}

impl Groups {
    // Nothing is grouped.
    pub fn new() -> Groups
        ensures { result ≡ record { starts = replicate max_starts 0; items = replicate max_entries 0 } }
    {
        Groups {
            starts: [0; MAX_STARTS],
            items: [0; MAX_ENTRIES],
        }
    }

    // The groups of n runs.
    pub fn rows(&self, n: usize) -> Jagged<'_>
        requires { Lies self.now.starts self.now.items n }
        ensures rows { result ≡ rows_in self.now.starts self.now.items n }
        ensures few { length self.now.items ≤ max_entries }
    {
        Jagged::new(&self.starts, &self.items, n)
    }

    // The parents of the runs from run a on, of those of all runs.
    pub fn gather(&mut self, all: &Jagged, a: u32)
        requires from { a ≤ length all.now }
        requires below { Below all.now }
        requires few { length (concat all.now) ≤ max_entries }
        ensures grouped { grouped self.new.starts self.new.items (length all.now - a) ≡ shares_of all.now a (length all.now - a) }
        ensures sound { Sound self.new.starts self.new.items (length all.now - a) }
    {
        prove!(all.len() < MAX_STARTS);
        gather(&mut self.starts, &mut self.items, all, a);
    }
}
