// The parents of runs, which lie row after row among the entries.
ghost use Rattle.std.specs.Prelude.{◌≡◌, ℕ, ◌+◌, ◌-◌, ◌<◌, length};
ghost use Rattle.model.specs.Record.{view};
ghost use Rattle.model.specs.History.{at};
ghost use Rattle.graph.specs.Rows.{row, Rows};

use graph::held::HeldGraph;

// The parents of each of some runs: where each run's begin among the items, and last where those of the last run end.
// No `Jagged` of the crate `tables`, which this crate does not know: this type holds that a run's parents are below it, a `Jagged` does not.
#[derive(Clone, Copy)]
pub(crate) struct ParentRows<'a> {
    pub(crate) starts: &'a [u32],
    pub(crate) items: &'a [u32],
    pub(crate) ghost rows: { Rows starts.now items.now (length starts.now - 1) },
}

impl<'a> ParentRows<'a> {
    // Those of a graph's runs.
    #[tactic(auto, using(crate::proofs::GraphRows::few_runs))]
    pub(crate) fn of_graph(g: &'a HeldGraph) -> ParentRows<'a>
        ensures counted { length result.starts.now ≡ g.now.graph.run_count + 1 }
        ensures parents { (r : ℕ) → r < g.now.graph.run_count → row result.starts.now result.items.now r ≡ at (view g.now.graph).parents r }
    {
        let starts = &g.graph.parent_starts[..g.graph.run_count + 1];
        ParentRows {
            starts,
            items: &g.graph.parents,
        }
    }

    // How many runs there are.
    pub(crate) fn len(self) -> usize
        ensures { result + 1 ≡ length self.entry.starts.now }
    {
        self.starts.len() - 1
    }

    // A run's parents, by its number.
    #[tactic(auto, unfolding(graph::specs::Rows::row, lists::specs::Areas::part))]
    pub(crate) fn of(self, run: usize) -> &'a [u32]
        requires { run + 1 < length self.starts.now }
        ensures { result.now ≡ row self.entry.starts.now self.entry.items.now run }
    {
        &self.items[self.starts[run] as usize..self.starts[run + 1] as usize]
    }
}
