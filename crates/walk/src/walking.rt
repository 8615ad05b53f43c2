// `walk` over a range of runs.
ghost use Rattle.std.specs.Prelude.{◌≡◌, ◌+◌, ◌-◌, ◌*◌, ◌≤◌, ◌^◌, max, min};
ghost use Rattle.model.specs.Record.{view};
ghost use Rattle.model.specs.Walk.{walk_of, walk_range};
ghost use Rattle.walk.specs.Ranges.{ArraysOf, range_at};
ghost use Rattle.moves.specs.Stretches.{Below};
ghost use Rattle.moves.specs.Emit.{so_far, written, same_list};
ghost use Rattle.walk.specs.Walked.{walked_in};

use crate::areas::Areas;
use crate::given::Given;
use crate::visiting;
use graph::held::HeldGraph;
use graph::ranges;
use model::{CausalGraph, EventRunIndex, Refusal, Walked};
use moves::writing::Steps;
use tables::jagged::Jagged;
use tables::tabling;

// A walk's range, from one run up to another, how many of its runs are known, and how many come first.
#[derive(Clone, Copy)]
pub(crate) struct Bounds {
    pub(crate) from: EventRunIndex,
    pub(crate) end: EventRunIndex,
    pub(crate) known: u32,
    pub(crate) first: u32,
    ghost inside: { (from.0 ≤ end.0) × (known ≤ end.0 - from.0) },
}

impl Bounds {
    // `first` as far as the range goes, and at least `known`.
    fn clamped(self) -> u32
        ensures { result ≡ max self.known (min self.first (self.end.0 - self.from.0)) }
    {
        let runs = self.end.0 - self.from.0;
        self.known.max(self.first.min(runs))
    }
}

// A range walked: its rows, and its steps after those written before.
pub(crate) fn walk_range(
    bounds: Bounds,
    graph: &CausalGraph,
    rows: &mut [u32],
    steps: &mut Steps,
    areas: &mut Areas,
) -> Result<(), Refusal>
    requires { ArraysOf graph.now bounds.end.0 }
    ensures same_list { same_list steps.new steps.old }
    ensures steps_after { (written result steps.new, rows.new) ≡ walked_in graph.now.starts
        (range_at graph.now bounds.from.0 bounds.end.0) bounds.from.0 bounds.known bounds.first (so_far steps.old) rows.old }
    ensures moved_bound { (so_far steps.new).0.moved ≤ (so_far steps.old).0.moved + (bounds.end.0 - bounds.from.0) * 2 ^ 52 }
{
    let a = bounds.from;
    let n = (bounds.end.0 - a.0) as usize;
    let all = Jagged::new(&graph.parent_starts, &graph.parents, bounds.end.0 as usize);
    let Some(area) = tabling::lay(
        &all,
        a.0,
        rows,
        &mut areas.parents.starts,
        &mut areas.parents.items,
        &mut areas.chains.row_starts,
        &mut areas.chains.chains,
        &mut areas.chains.places,
        &mut areas.chains.lens,
        &mut areas.scratch,
    ) else {
        return Err(Refusal::RowsTooLong);
    };
    let x = a.0 as usize;
    let y = x + n + 1;
    areas.prepare(&graph.starts[x..y], n, area.chains, rows);
    let given = Given {
        starts: &graph.starts,
        rows,
        areas,
        base: a,
        runs: n,
        chains: area.chains,
        known: bounds.known,
        first: bounds.clamped(),
    };
    visiting::visits(&given, steps)
}

// Starts are numbers of 32 bits: by that a walk's `moved` fits 64.
pub(crate) fn starts_fit(starts: &[u32])
    ensures { Below (2 ^ 32) starts.now }
{}

// `walk` on a graph that is known not to be broken and a range inside it.
fn walk_held(g: &HeldGraph, bounds: Bounds, rows: &mut [u32], steps: &mut [u32]) -> Walked
    requires { bounds.end.0 ≤ g.now.graph.run_count }
    ensures { (result, rows.new, steps.new) ≡ walk_range (view g.now.graph) bounds.from.0 bounds.end.0 bounds.known bounds.first rows.old steps.old }
{
    starts_fit(&g.graph.starts);
    let mut written = Steps::over(steps);
    let mut areas = Areas::new();
    let outcome = walk_range(bounds, &g.graph, rows, &mut written, &mut areas);
    written.walked(outcome)
}

// The walk over the runs from `first_run` up to `end_run`: rows into `rows`, steps into `steps`. `known` and `first` stand alone, as in 01's call.
pub fn walk(
    g: CausalGraph,
    first_run: EventRunIndex,
    end_run: EventRunIndex,
    known: u32,
    first: u32,
    rows: &mut [u32],
    steps: &mut [u32],
) -> Walked
    ensures { (result, rows.new, steps.new) ≡ walk_of g first_run.0 end_run.0 known first rows.old steps.old }
{
    match ranges::range_outcome(g, first_run, end_run, known) {
        Ok(held) => {
            let bounds = Bounds {
                from: first_run,
                end: end_run,
                known,
                first,
            };
            walk_held(&held, bounds, rows, steps)
        }
        Err(r) => Steps::over(steps).walked(Err(r)),
    }
}
