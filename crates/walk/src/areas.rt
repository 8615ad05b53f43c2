// Work areas in which a range of any graph's runs has room, and a range's tables, made in them.
ghost use Rattle.std.specs.Prelude.{◌≡◌, ◌≤◌};
ghost use Rattle.model.specs.Limits.{max_runs};
ghost use Rattle.walk.specs.Prepare.{Measurable, Measured, Relatable, Related};

use model::{MAX_RUNS, MAX_STARTS};
use tables::covers::{COVER_WORDS, CoverWord};
use tables::groups::Groups;
use tables::members::Members;
use tables::rows::ChainTables;
use tables::{covers, distance, tabling};

// Nothing is asked of what lies in them when a range is begun. Arrays of fixed size, since no heap is used: a range has the first places of each,
// so that its numbers of runs and of chains go beside them. Methods say which areas they leave, since callers hold facts of those.
#[derive(Drop)]
pub(crate) struct Areas {
    // Each run's parents.
    pub(crate) parents: Groups,
    // Where each run's row starts, its chain, its place along it, and each chain's length.
    pub(crate) chains: ChainTables,
    // The chains' members, and the events before each.
    pub(crate) members: Members,
    // The events of each run's history.
    pub(crate) sizes: [u64; MAX_RUNS],
    // Each run's children.
    pub(crate) children: Groups,
    pub(crate) weights: [u32; MAX_RUNS],
    // A cover for each run.
    pub(crate) covers: [CoverWord; MAX_RUNS * COVER_WORDS],
    pub(crate) scratch: [u32; MAX_STARTS],
}

impl Areas {
    // Nothing is prepared.
    pub(crate) fn new() -> Areas {
        Areas {
            parents: Groups::new(),
            chains: ChainTables::new(),
            members: Members::new(),
            sizes: [0; MAX_RUNS],
            children: Groups::new(),
            weights: [0; MAX_RUNS],
            covers: [0; MAX_RUNS * COVER_WORDS],
            scratch: [0; MAX_STARTS],
        }
    }

    // Members, sums and sizes of a range whose rows are laid.
    fn measure(&mut self, starts: &[u32], n: usize, chains: usize, rows: &[u32])
        requires { (chains ≤ max_runs) × Measurable n rows.now self.old.chains }
        ensures measured { Measured starts.now n chains rows.now self.new.chains self.new.members self.new.sizes }
        ensures kept { (self.new.parents ≡ self.old.parents) × (self.new.chains ≡ self.old.chains) }
    {
        self.members.index(starts, n, &self.chains);
        let rows = self.chains.rows(rows, n);
        let sums = self.members.sums(n, chains);
        distance::sizes_of(&mut self.sizes, sums, &rows);
    }

    // Children and weights.
    fn relate(&mut self, starts: &[u32], n: usize)
        requires { Relatable starts.now n self.old.parents }
        ensures related { Related starts.now n self.new.parents self.new.children self.new.weights }
        ensures kept { (self.new.parents ≡ self.old.parents) × (self.new.chains ≡ self.old.chains) }
        ensures measured { (self.new.members ≡ self.old.members) × (self.new.sizes ≡ self.old.sizes) }
    {
        let parents = self.parents.rows(n);
        tabling::children(
            &parents,
            &mut self.children.starts,
            &mut self.children.items,
            &mut self.scratch,
        );
        covers::weights_of(
            &mut self.weights,
            &mut self.covers,
            starts,
            &self.children.starts,
            &self.children.items,
            n,
        );
    }

    // All of a range's tables; `starts` are its own.
    pub(crate) fn prepare(&mut self, starts: &[u32], n: usize, chains: usize, rows: &[u32])
        requires measurable { (chains ≤ max_runs) × Measurable n rows.now self.old.chains }
        requires relatable { Relatable starts.now n self.old.parents }
        ensures measured { Measured starts.now n chains rows.now self.new.chains self.new.members self.new.sizes }
        ensures related { Related starts.now n self.new.parents self.new.children self.new.weights }
        ensures kept { (self.new.parents ≡ self.old.parents) × (self.new.chains ≡ self.old.chains) }
    {
        self.measure(starts, n, chains, rows);
        self.relate(starts, n);
    }
}
