// The test of a graph value, clause by clause of 01's sentence. The graph is lent, never copied.
ghost use Rattle.std.specs.Prelude.{◌≡◌, ◌||◌, ◌+◌, eqb};
ghost use Rattle.model.specs.Broken;
ghost use Rattle.graph.specs.Counts.{CountsFit};

use model::{CausalGraph, MAX_ENTRIES, MAX_FRONTIER, MAX_RUNS};

// "a count passes its limit"
#[tactic(auto, unfolding(model::specs::Broken::over_limit))]
fn over_limit(g: &CausalGraph) -> bool
    ensures { result ≡ Broken.over_limit g.now }
{
    MAX_RUNS < g.run_count
        || MAX_ENTRIES < g.entry_count
        || MAX_FRONTIER < g.frontier_count
        || MAX_RUNS < g.mark_count
}

// Whether b comes just after a, which are events or runs.
pub(crate) fn is_next(a: u32, b: u32) -> bool
    ensures { result ≡ eqb (a + 1) b }
{
    a.checked_add(1) == Some(b)
}

// A lent graph none of whose counts passes its limit.
#[derive(Clone, Copy)]
struct Counted<'a> {
    graph: &'a CausalGraph,
    ghost fit: { CountsFit graph.now },
}

impl<'a> Counted<'a> {
    // "starts are not rising"
    #[tactic(auto, unfolding(model::specs::Broken::bad_starts, model::specs::Record::view))]
    fn bad_starts(self) -> bool
        ensures { result ≡ Broken.bad_starts self.entry.graph.now }
    {
        let g = self.graph;
        !lists::is_rising(&g.starts[..g.run_count + 1])
    }

    // "the parent groups do not cover the entries in run order"
    #[tactic(auto, unfolding(model::specs::Broken::bad_groups))]
    fn bad_groups(self) -> bool
        ensures { result ≡ Broken.bad_groups self.entry.graph.now }
    {
        let g = self.graph;
        if g.parent_starts[0] != 0 {
            return true;
        }
        !lists::is_climb(&g.parent_starts[..g.run_count + 1], g.entry_count)
    }

    // That, or "a run's parents are not strictly rising and below it"
    fn bad_parents(self) -> bool
        ensures { result ≡ (Broken.bad_groups self.entry.graph.now || Broken.bad_parents self.entry.graph.now) }
    {
        if self.bad_groups() {
            return true;
        }
        let g = self.graph;
        !lists::groups_fit(
            &g.parent_starts[..g.run_count + 1],
            &g.parents[..g.entry_count],
        )
    }

    // "the frontier is not rising and below `len` (its last is `len`-1 where there are runs)"
    fn bad_frontier(self) -> bool
        ensures { result ≡ Broken.bad_frontier self.entry.graph.now }
    {
        let g = self.graph;
        let len = g.starts[g.run_count];
        let frontier = &g.frontier[..g.frontier_count];
        if !lists::is_rising(frontier) {
            return true;
        }
        if !lists::all_below(frontier, len) {
            return true;
        }
        if g.run_count == 0 {
            return false;
        }
        let Some(last) = frontier.last() else {
            return true;
        };
        !is_next(*last, len)
    }

    // "a seen length is below first held or above its run's start"
    #[tactic(auto, unfolding(model::specs::Broken::bad_seen, model::specs::Record::view))]
    fn bad_seen(self) -> bool
        ensures { result ≡ Broken.bad_seen self.entry.graph.now }
    {
        let g = self.graph;
        !lists::is_between(
            g.starts[0],
            &g.starts[..g.run_count + 1],
            &g.seen_prefix_len[..g.run_count],
        )
    }

    // "the marks are not the set below"
    fn bad_marks(self) -> bool
        ensures { result ≡ Broken.bad_marks self.entry.graph.now }
    {
        let g = self.graph;
        let marks = crate::marks::marks_of(
            &g.starts[..g.run_count + 1],
            &g.seen_prefix_len[..g.run_count],
        );
        &g.critical_versions[..g.mark_count] != marks.as_slice()
    }

    // "`changed_from` passes the run count"
    #[tactic(auto, unfolding(model::specs::Broken::bad_changed))]
    fn bad_changed(self) -> bool
        ensures { result ≡ Broken.bad_changed self.entry.graph.now }
    {
        let g = self.graph;
        let changed = g.changed_from;
        g.run_count < changed.0 as usize
    }

    // "a place past a count is not 0"
    #[tactic(auto, unfolding(model::specs::Broken::bad_padding))]
    fn bad_padding(self) -> bool
        ensures { result ≡ Broken.bad_padding self.entry.graph.now }
    {
        let g = self.graph;
        !(lists::is_zero(&g.starts[g.run_count + 1..])
            && lists::is_zero(&g.parent_starts[g.run_count + 1..])
            && lists::is_zero(&g.parents[g.entry_count..])
            && lists::is_zero(&g.frontier[g.frontier_count..])
            && lists::is_zero(&g.seen_prefix_len[g.run_count..])
            && lists::is_zero(&g.critical_versions[g.mark_count..]))
    }

    // What the sentence says but for the limits.
    fn bad_arrays(self) -> bool
        ensures { result ≡ (
            Broken.bad_starts self.entry.graph.now ||
            (Broken.bad_groups self.entry.graph.now || Broken.bad_parents self.entry.graph.now) ||
            Broken.bad_frontier self.entry.graph.now ||
            Broken.bad_seen self.entry.graph.now ||
            Broken.bad_marks self.entry.graph.now ||
            Broken.bad_changed self.entry.graph.now ||
            Broken.bad_padding self.entry.graph.now
            ) }
    {
        self.bad_starts()
            || self.bad_parents()
            || self.bad_frontier()
            || self.bad_seen()
            || self.bad_marks()
            || self.bad_changed()
            || self.bad_padding()
    }
}

// Whether a graph is broken. Inlined into `HeldGraph::of` it costs a call 2 µs more.
#[inline(never)]
pub fn is_broken(g: CausalGraph) -> bool
    ensures { result ≡ Broken.broken g }
{
    if over_limit(&g) {
        return true;
    }
    Counted { graph: &g }.bad_arrays()
}
