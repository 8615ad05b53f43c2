// A run grown, or a new one, by the events of a push.
ghost use Rattle.std.specs.Prelude.{◌≡◌, cond, [], ◌∷◌, ◌+◌, ◌-◌, ◌<◌, ◌≤◌, ◌^◌, min};
ghost use Rattle.lists.specs.Lists.{bit, count, same};
ghost use Rattle.model.specs.Limits.{max_entries, max_runs};
ghost use Rattle.model.specs.Graph;
ghost use Rattle.model.specs.Graph.{len, is_held};
ghost use Rattle.model.specs.Record.{view, store};
ghost use Rattle.model.specs.Push.{grown, joined, lowered};
ghost use Rattle.graph.specs.Loops.{side_in, add_own, own_all, Joins, lower_all, assembled};

use crate::held::HeldGraph;
use crate::splitting::seen_up_to;
use lists::Kept;
use model::{CausalGraph, Containing, EventIndex, EventRunIndex, MAX_ENTRIES};

// Of a new run's parents so far, in one width: how many entries there are with theirs, and the largest of the first held event and what
// their runs have seen.
#[derive(Clone, Copy)]
pub(crate) struct Own {
    pub(crate) count: u32,
    pub(crate) seen: EventIndex,
}

// A parent: its run joins the entries if it is held.
fn add_own(g: &HeldGraph, items: &mut [u32; MAX_ENTRIES], t: Own, p: EventIndex) -> Own
    requires { t.count + bit (is_held (side_in g.now.graph.starts g.now.graph.run_count p.0)) ≤ max_entries }
    ensures { (items.new, result) ≡ add_own g.now.graph.starts g.now.graph.seen_prefix_len g.now.graph.run_count (items.old, t) p.0 }
{
    let Containing::Run(run) = g.containing(p) else {
        return t;
    };
    let place = run.0 as usize;
    let next = place + 1;
    let after = seen_up_to(
        EventIndex(g.graph.seen_prefix_len[place]),
        EventIndex(g.graph.starts[place]),
        EventIndex(g.graph.starts[next]),
    );
    let n = t.count as usize;
    items[n] = run.0;
    Own {
        count: t.count + 1,
        seen: t.seen.max(after),
    }
}

// The same for all parents.
fn own_all(g: &HeldGraph, items: &mut [u32; MAX_ENTRIES], t: Own, ps: &[u32]) -> Own
    requires { t.count + count (λ p. is_held (side_in g.now.graph.starts g.now.graph.run_count p)) ps.now ≤ max_entries }
    ensures { (items.new, result) ≡ own_all g.now.graph.starts g.now.graph.seen_prefix_len g.now.graph.run_count (items.old, t) ps.now }
{
    let mut h = t;
    for p in ps {
        h = add_own(g, items, h, EventIndex(*p));
    }
    h
}

// What a new run has seen: all where its parents are the frontier.
fn pick_seen(g: &HeldGraph, ps: &[u32], start: EventIndex, other: EventIndex) -> EventIndex
    ensures { result.0 ≡ cond (same ps.now (view g.now.graph).frontier) start.0 other.0 }
{
    if ps == g.frontier() {
        return start;
    }
    other
}

// The lower run where a mark is lost.
fn lower(from: EventRunIndex, lost: bool, run: EventRunIndex) -> EventRunIndex
    ensures { result.0 ≡ cond lost (min from.0 run.0) from.0 }
{
    if lost {
        return from.min(run);
    }
    from
}

// The lowest of `from` and the marked runs that start past `seen`.
fn lower_all(g: &HeldGraph, seen: EventIndex, from: EventRunIndex) -> EventRunIndex
    ensures { result.0 ≡ lower_all (view g.now.graph).starts seen.0 from.0 (Graph.marks (view g.now.graph)) }
{
    let mut c = from;
    let marks = g.marks();
    for m in marks {
        let place = *m as usize;
        c = lower(
            c,
            seen < EventIndex(g.graph.starts[place]),
            EventRunIndex(*m),
        );
    }
    c
}

// The record with the new run after the others.
#[tactic(auto, unfolding(crate::specs::Loops::assembled, crate::specs::Loops::marked, crate::specs::Loops::with_parts))]
fn assemble(
    g: &HeldGraph,
    end: EventIndex,
    items: [u32; MAX_ENTRIES],
    t: Own,
    tips: Kept,
    s: EventIndex,
    changed: EventRunIndex,
) -> CausalGraph
    requires run_room { g.now.graph.run_count < max_runs }
    requires entries_fit { t.count ≤ max_entries }
    ensures { result ≡ assembled g.now.graph end.0 (items, t) tips s.0 changed.0 }
{
    let runs = g.graph.run_count;
    let next = runs + 1;
    let tip_count = tips.len();
    let mut h = g.graph;
    h.starts[next] = end.0;
    h.parent_starts[next] = t.count;
    h.seen_prefix_len[runs] = s.0;
    h.parents = items;
    h.frontier = tips.into_array();
    h.run_count = next;
    h.entry_count = t.count as usize;
    h.frontier_count = tip_count;
    h.changed_from = changed;
    crate::marks::mark(&mut h);
    h
}

// A lent graph, and how many events are pushed onto it: at least one, and their end fits.
#[derive(Clone, Copy)]
pub(crate) struct Growth<'a> {
    pub(crate) graph: &'a HeldGraph,
    pub(crate) more: u32,
    ghost some: { 0 < more },
    ghost fits: { len (view graph.now.graph) + more < 2 ^ 32 },
}

impl<'a> Growth<'a> {
    // The last run grows by them.
    pub(crate) fn grow_last(self) -> CausalGraph
        requires { 0 < self.graph.now.graph.run_count }
        ensures { result ≡ store (grown (view self.entry.graph.now.graph) ((len (view self.entry.graph.now.graph) - 1) ∷ []) self.entry.more) }
    {
        let g = self.graph;
        let runs = g.graph.run_count;
        let tips = g.graph.frontier_count;
        let end = g.len().0 + self.more;
        let was = g.graph.changed_from;
        let mut h = g.graph;
        h.starts[runs] = end;
        h.frontier[tips - 1] = end - 1;
        h.changed_from = EventRunIndex(runs as u32 - 1).min(was);
        h
    }

    // They are a new run, once their held parents end runs.
    pub(crate) fn join(self, ps: &[u32]) -> CausalGraph
        requires { Joins (view self.graph.now.graph) ps.now self.more }
        ensures { result ≡ store (lowered (view self.entry.graph.now.graph) (joined (view self.entry.graph.now.graph) ps.now self.entry.more)) }
    {
        let g = self.graph;
        let start = g.len();
        let end = start.0 + self.more;
        let mut items = g.graph.parents;
        let first = Own {
            count: g.graph.entry_count as u32,
            seen: EventIndex(g.graph.starts[0]),
        };
        let t = own_all(g, &mut items, first, ps);
        let mut tips = lists::keep_all(g.frontier(), ps);
        tips.push(end - 1);
        let s = pick_seen(g, ps, start, t.seen);
        let was = g.graph.changed_from;
        let low = EventRunIndex(g.graph.run_count as u32).min(was);
        let changed = lower_all(g, s, low);
        assemble(g, EventIndex(end), items, t, tips, s, changed)
    }
}
