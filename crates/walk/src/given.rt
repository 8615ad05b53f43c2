// What a walk is given, and what it reads there of a run.
ghost use Rattle.std.specs.Prelude.{◌≡◌, ◌+◌, ◌<◌, ◌≤◌, ◌^◌, length, get_or};
ghost use Rattle.lists.specs.Areas.{part};
ghost use Rattle.model.specs.History.{at};
ghost use Rattle.tables.specs.Sizes.{events_from};
ghost use Rattle.walk.specs.Given.{Given, chains_in, places_in, begins_in, members_in, weights_in, sums_in, row_for, children_for, parents_for, Prepared};

use crate::areas::Areas;
use model::EventRunIndex;
use std::marker::Model;
use tables::distance::Sums;

// Where the graph's runs start, the range's rows and tables, its first run, how many runs and chains it has, how many runs are
// known and how many come first. The tables are those of the range. What reads of a run asks that it is one of the range: steps and lists
// have bare numbers for runs, and a type of the range's runs would ask it wherever one is made.
#[derive(Drop)]
pub(crate) struct Given<'a> {
    pub(crate) starts: &'a [u32],
    pub(crate) rows: &'a [u32],
    pub(crate) areas: &'a Areas,
    pub(crate) base: EventRunIndex,
    pub(crate) runs: usize,
    pub(crate) chains: usize,
    pub(crate) known: u32,
    pub(crate) first: u32,
}

impl<'a> Model for Given<'a> {
    ghost Value = { Given };

    ghost view = { λ a. record {
      starts = a.starts.now;
      rows = a.rows.now;
      areas = a.areas.now;
      base = a.base.0;
      runs = a.runs;
      chains = a.chains;
      known = a.known;
      first = a.first;
    } };

    ghost invariant = { λ a. Prepared (record {
      starts = a.starts.now;
      rows = a.rows.now;
      areas = a.areas.now;
      base = a.base.0;
      runs = a.runs;
      chains = a.chains;
      known = a.known;
      first = a.first;
    }) };
}

// The part of a list between two places. Beside `Jagged::row`: a `Jagged` would be made anew at each read, and its reads
// test two starts that are there.
#[tactic(auto, unfolding(lists::specs::Areas::part))]
fn part(list: &[u32], from: u32, to: u32) -> &[u32]
    requires { (from ≤ to) × (to ≤ length list.now) }
    ensures value { result.now ≡ part from to list.now }
    ensures length { length result.now ≤ length list.now }
{
    &list[from as usize..to as usize]
}

impl<'a> Given<'a> {
    // A run's chain.
    #[tactic(auto, unfolding(crate::specs::Given::chains_in))]
    pub(crate) fn chain(&self, run: usize) -> usize
        requires { run < self.now.runs }
        ensures { result ≡ get_or (chains_in self.now) run 0 }
    {
        let areas = self.areas;
        areas.chains.chains[run] as usize
    }

    // A run's place along its chain.
    #[tactic(auto, unfolding(crate::specs::Given::places_in))]
    pub(crate) fn place(&self, run: usize) -> u32
        requires { run < self.now.runs }
        ensures { result ≡ get_or (places_in self.now) run 0 }
    {
        let areas = self.areas;
        areas.chains.places[run]
    }

    // Where each chain's members begin.
    #[tactic(auto, unfolding(crate::specs::Given::begins_in))]
    pub(crate) fn begins(&self) -> &[u32]
        ensures { result.now ≡ begins_in self.now }
    {
        &self.areas.members.starts[..self.runs + 1]
    }

    // The chains' members, one chain after another.
    #[tactic(auto, unfolding(crate::specs::Given::members_in))]
    pub(crate) fn members(&self) -> &[u32]
        ensures value { result.now ≡ members_in self.now }
        ensures length { length result.now ≡ self.now.runs + 1 }
    {
        &self.areas.members.runs[..self.runs + 1]
    }

    // The sums of the members' events.
    pub(crate) fn sums(&self) -> Sums<'_>
        ensures before { result.before.now ≡ sums_in self.now }
        ensures begins { result.begins.now ≡ begins_in self.now }
        ensures chains { result.chains ≡ self.now.chains }
    {
        self.areas.members.sums(self.runs, self.chains)
    }

    // A run's row.
    pub(crate) fn row(&self, run: usize) -> &[u32]
        requires { run < self.now.runs }
        ensures { result.now ≡ row_for self.now run }
    {
        let tables = &self.areas.chains;
        part(
            self.rows,
            tables.row_starts[run],
            tables.row_starts[run + 1],
        )
    }

    // A run's parents.
    pub(crate) fn parents(&self, run: usize) -> &[u32]
        requires { run < self.now.runs }
        ensures value { result.now ≡ at (parents_for self.now) run }
        ensures few { length result.now ≤ 2 ^ 31 }
    {
        let parents = &self.areas.parents;
        part(&parents.items, parents.starts[run], parents.starts[run + 1])
    }

    // A run's children.
    pub(crate) fn children(&self, run: usize) -> &[u32]
        requires { run < self.now.runs }
        ensures { result.now ≡ children_for self.now run }
    {
        let children = &self.areas.children;
        part(
            &children.items,
            children.starts[run],
            children.starts[run + 1],
        )
    }

    // A run's weight.
    #[tactic(auto, unfolding(crate::specs::Given::weights_in))]
    pub(crate) fn weight(&self, run: usize) -> u64
        requires { run < self.now.runs }
        ensures { result ≡ get_or (weights_in self.now) run 0 }
    {
        let areas = self.areas;
        u64::from(areas.weights[run])
    }

    // The events of a run's history.
    pub(crate) fn size(&self, run: usize) -> u64
        requires { run < self.now.runs }
        ensures { result ≡ events_from (sums_in self.now) (begins_in self.now) (row_for self.now run) 0 self.now.chains }
    {
        let areas = self.areas;
        areas.sizes[run]
    }
}
