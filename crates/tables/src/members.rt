// Each chain's members one after another, and prefix sums of their events.
ghost use Rattle.std.specs.Prelude.{◌≡◌, ◌+◌, ◌≤◌, ◌<◌, ◌^◌, length, get_or, take, replicate};
ghost use Rattle.model.specs.Limits.{max_runs, max_starts};
ghost use Rattle.tables.specs.Tables.{size_in};
ghost use Rattle.tables.specs.Indexed.{Summed, Bounded, BoundedTo, Placed, pos, Scattered, Indexable, IndexOf};

use crate::distance::Sums;
use crate::rows::ChainTables;
use crate::words::{item, sum_up};
use model::MAX_STARTS;

// Of a range's chains, one after another: where each one's members begin, the members, and the events of the members before each.
// Arrays of fixed size, since no heap is used: of n runs the first n places are meant, so n goes beside them.
#[derive(Drop)]
pub struct Members {
    pub starts: [u32; MAX_STARTS],
    pub runs: [u32; MAX_STARTS],
    pub before: [u64; MAX_STARTS],
}

// Where the members of each of n chains begin, and where the last one's end; past these, 0. Past the end of `lens` a chain has none.
pub fn begins_of(begins: &mut [u32], lens: &[u32], n: usize)
    requires { (n ≤ max_runs) × (n < length begins.old) × Bounded max_runs lens.now }
    ensures { Summed (λ i. get_or lens.now i 0) n begins.new × Bounded (2 ^ 18) begins.new }
{
    let m = lens.len().min(n);
    begins.fill(0);
    begins[1..m + 1].copy_from_slice(&lens[..m]);
    sum_up(&mut begins[..n + 1]);
}

// A run's place among all chains' members.
fn position<'a>(begins: &'a [u32], chain: &'a [u32], place: &'a [u32], m: usize) -> usize
    ensures { result ≡ pos begins.now chain.now place.now m }
{
    let k = item(chain, m, 0) as usize;
    item(begins, k, 0) as usize + item(place, m, 0) as usize
}

// Each chain's members, in order; past these, 0. `members` may have room for any range, so the runs' number goes beside it, as it does beside
// the areas.
pub fn members_of<'a>(
    members: &mut [u32],
    begins: &'a [u32],
    chain: &'a [u32],
    place: &'a [u32],
    n: usize,
)
    requires { (n ≤ max_runs) × (n ≤ length members.old) × Scattered begins.now chain.now place.now n }
    ensures { Placed (pos begins.now chain.now place.now) n members.new × Bounded 511 members.new }
{
    members.fill(0);
    for m in 0..n {
        let at = position(begins, chain, place, m);
        members[at] = m as u32;
    }
}

// The events of run m, of runs that start at `starts`.
pub fn size_of(starts: &[u32], m: usize) -> u32
    requires { m < 2 ^ 32 }
    ensures { result ≡ size_in starts.now m }
{
    item(starts, m + 1, 0).saturating_sub(item(starts, m, 0))
}

// The events of the first n members before each; past the end of `members` stands run 0. Beside `sum_up`: these sums are wider, and of sizes
// that stand in no list. That the members are few is a clause, which the sums' bound needs: a type of short slices would ask it where each is made.
pub fn sums_of(before: &mut [u64], members: &[u32], starts: &[u32], n: usize)
    requires { (n ≤ max_runs) × (n < length before.old) }
    ensures sums { Summed (λ i. size_in starts.now (get_or members.now i 0)) n before.new × BoundedTo n (2 ^ 41) before.new }
    ensures small { Bounded (2 ^ 41) before.old → Bounded (2 ^ 41) before.new }
{
    before[0] = 0;
    for j in 0..n {
        let m = item(members, j, 0) as usize;
        before[j + 1] = before[j] + u64::from(size_of(starts, m));
    }
}

// The members of the chains of n runs, and their sums, of lists of n + 1 words or more: the chains' lengths, each run's chain and its place along
// it; where each chain's members begin, the members, and the events before each.
pub fn index(
    starts: &[u32],
    n: usize,
    lens: &[u32],
    chain: &[u32],
    place: &[u32],
    begins: &mut [u32],
    runs: &mut [u32],
    before: &mut [u64],
)
    requires given { (n < length lens.now) × (n < length chain.now) × (n < length place.now) }
    requires room { (n < length begins.old) × (n < length runs.old) × (n < length before.old) }
    requires indexable { Indexable n (take (n + 1) lens.now) (take (n + 1) chain.now) (take (n + 1) place.now) }
    ensures index { IndexOf starts.now n (take (n + 1) lens.now) (take (n + 1) chain.now) (take (n + 1) place.now) (take (n + 1) begins.new)
        (take (n + 1) runs.new) before.new }
    ensures small { Bounded (2 ^ 41) before.old → Bounded (2 ^ 41) before.new }
{
    let w = n + 1;
    begins_of(&mut begins[..w], &lens[..w], n);
    members_of(&mut runs[..w], &begins[..w], &chain[..w], &place[..w], n);
    let members = &runs[..w];
    sums_of(before, members, starts, n);
}

impl Members {
    // Nothing is listed.
    pub fn new() -> Members
        ensures { result ≡ record { starts = replicate max_starts 0; runs = replicate max_starts 0; before = replicate max_starts 0 } }
    {
        Members {
            starts: [0; MAX_STARTS],
            runs: [0; MAX_STARTS],
            before: [0; MAX_STARTS],
        }
    }

    // The members of the chains of n runs, and their sums.
    pub fn index(&mut self, starts: &[u32], n: usize, tables: &ChainTables)
        requires { Indexable n (take (n + 1) tables.now.lens) (take (n + 1) tables.now.chains) (take (n + 1) tables.now.places) }
        ensures index { IndexOf starts.now n (take (n + 1) tables.now.lens) (take (n + 1) tables.now.chains) (take (n + 1) tables.now.places)
            (take (n + 1) self.new.starts) (take (n + 1) self.new.runs) self.new.before }
        ensures small { Bounded (2 ^ 41) self.old.before → Bounded (2 ^ 41) self.new.before }
    {
        index(
            starts,
            n,
            &tables.lens,
            &tables.chains,
            &tables.places,
            &mut self.starts,
            &mut self.runs,
            &mut self.before,
        );
    }

    // The sums of n runs on so many chains. That the sums are small is asked here alone, where a range's sums are taken: `index`
    // says it of the first n + 1. That runs and chains are few is asked where their numbers go beside the arrays.
    pub fn sums(&self, n: usize, chains: usize) -> Sums<'_>
        requires few { (n ≤ max_runs) × (chains ≤ max_runs) }
        requires small { Bounded (2 ^ 41) (take (n + 1) self.now.before) }
        ensures before { result.before.now ≡ take (n + 1) self.now.before }
        ensures begins { result.begins.now ≡ take (n + 1) self.now.starts }
        ensures chains { result.chains ≡ chains }
    {
        Sums {
            before: &self.before[..n + 1],
            begins: &self.starts[..n + 1],
            chains,
        }
    }
}
