// A run split in two, and each held parent's run split after it, in the record's own arrays.
ghost use Rattle.std.specs.Prelude.{◌≡◌, cond, eqb, ◌<◌};
ghost use Rattle.model.specs.Limits.{max_entries, max_runs};
ghost use Rattle.model.specs.Graph.{held, side, in_run};
ghost use Rattle.model.specs.Record.{view, store};
ghost use Rattle.model.specs.Split;
ghost use Rattle.model.specs.Split.{split, split_after};
ghost use Rattle.graph.specs.Loops.{Room, parts_of, SplitFits, split_in, AfterFits, after_in, with_arrays};

use crate::held::HeldGraph;
use model::{CausalGraph, Containing, EventIndex, EventRunIndex};

// What is seen up to `end`, if all before `start` is, else just what is: "seen after" a run, and what a split run's second part has seen.
pub(crate) fn seen_up_to(seen: EventIndex, start: EventIndex, end: EventIndex) -> EventIndex
    ensures { result.0 ≡ cond (eqb seen.0 start.0) end.0 seen.0 }
{
    if seen == start {
        return end;
    }
    seen
}

// Splits a run so that a new one starts at `at`: a place is taken up in each array. The marks are left as they were.
fn split_in(g: &mut CausalGraph, run: EventRunIndex, at: EventIndex)
    requires { SplitFits (parts_of g.old) run.0 }
    ensures { g.new ≡ with_arrays g.old (split_in (parts_of g.old) run.0 at.0) }
{
    let runs = g.run_count;
    let entries = g.entry_count;
    let was = g.changed_from;
    let place = run.0 as usize;
    let next = place + 1;
    let later = g.parent_starts[next];
    let second = seen_up_to(
        EventIndex(g.seen_prefix_len[place]),
        EventIndex(g.starts[place]),
        at,
    );
    lists::insert_and_grow(&mut g.starts[..runs + 2], next, at.0, 0, 0);
    lists::insert_and_grow(&mut g.parent_starts[..runs + 2], next, later, 0, 1);
    lists::insert_and_grow(
        &mut g.parents[..entries + 1],
        later as usize,
        run.0,
        run.0,
        1,
    );
    lists::insert_and_grow(&mut g.seen_prefix_len[..runs + 1], next, second.0, 0, 0);
    g.run_count = runs + 1;
    g.entry_count = entries + 1;
    g.changed_from = run.min(was);
}

// Splits the run that holds `at` so that a new one starts there.
pub(crate) fn split_run(g: &HeldGraph, run: EventRunIndex, at: EventIndex) -> CausalGraph
    requires inside { side (view g.now.graph) at.0 ≡ in_run run.0 }
    requires run_room { g.now.graph.run_count < max_runs }
    requires entry_room { g.now.graph.entry_count < max_entries }
    ensures { result ≡ store (split (view g.now.graph) run.0 at.0) }
{
    let mut h = g.graph;
    split_in(&mut h, run, at);
    crate::marks::mark(&mut h);
    h
}

// Splits the run of a held parent after it, unless a run or the graph ends there.
fn split_after(g: &mut CausalGraph, p: EventIndex)
    requires { AfterFits (parts_of g.old) p.0 }
    ensures { g.new ≡ with_arrays g.old (after_in (parts_of g.old) p.0) }
{
    let starts = &g.starts[..g.run_count + 1];
    let Containing::Run(run) = crate::lookups::containing_in(starts, p) else {
        return;
    };
    let next = run.0 as usize + 1;
    let end = starts[next];
    let after = EventIndex(p.0 + 1);
    if !crate::broken::is_next(p.0, end) {
        split_in(g, run, after);
    }
}

// Splits the runs of held parents after them, one parent after another. `splits` is how many of them split a run.
pub(crate) fn split_all(g: HeldGraph, ps: &[u32], splits: usize) -> HeldGraph
    requires room { Room (view g.graph) ps.now }
    requires splits_counted { splits ≡ Split.splits (view g.graph) ps.now }
    ensures { result.graph ≡ store (split_after (view g.graph) (held (view g.graph) ps.now)) }
{
    if splits == 0 {
        return g;
    }
    let mut h = g.graph;
    for p in ps {
        split_after(&mut h, EventIndex(*p));
    }
    crate::marks::mark(&mut h);
    HeldGraph { graph: h }
}
