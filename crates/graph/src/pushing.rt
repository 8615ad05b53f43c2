// Events pushed onto the graph.
ghost use Rattle.std.specs.Prelude.{◌≡◌, true, ◌+◌, ◌<◌, ◌^◌, ltb};
ghost use Rattle.lists.specs.Lists.{rising};
ghost use Rattle.model.specs.Graph.{len, all_known, extends};
ghost use Rattle.model.specs.Record.{view};
ghost use Rattle.model.specs.Push.{push_held_of, push_of};
ghost use Rattle.graph.specs.Loops.{count_parent, count_parents};

use crate::broken::is_next;
use crate::growth::Growth;
use crate::held::{HeldGraph, refused};
use crate::splitting::split_all;
use model::{
    CausalGraph, Changed, Containing, EventIndex, MAX_ENTRIES, MAX_FRONTIER, MAX_LEN, MAX_RUNS,
    Refusal,
};

// Whether `used` and `more` together pass `limit`.
fn over(limit: usize, used: usize, more: usize) -> bool
    ensures { result ≡ ltb limit (used + more) }
{
    used.checked_add(more).is_none_or(|sum| limit < sum)
}

// Whether there are runs and the parents are just the last event.
pub(crate) fn does_extend(g: &HeldGraph, ps: &[u32]) -> bool
    ensures { result ≡ extends (view g.now.graph) ps.now }
{
    if g.graph.run_count == 0 {
        return false;
    }
    let last = [g.len().0.saturating_sub(1)];
    ps == &last[..]
}

// Of some parents: how many are not yet known, how many are held, and how many of these split their run.
#[derive(Clone, Copy)]
pub(crate) struct ParentCounts {
    pub(crate) unknown: usize,
    pub(crate) held: usize,
    pub(crate) splits: usize,
}

// One parent more.
fn count_parent(g: &HeldGraph, t: ParentCounts, p: EventIndex) -> ParentCounts
    requires unknown_room { t.unknown + 1 < 2 ^ 64 }
    requires held_room { t.held + 1 < 2 ^ 64 }
    requires splits_room { t.splits + 1 < 2 ^ 64 }
    ensures { result ≡ count_parent g.now.graph.starts g.now.graph.run_count t p.0 }
{
    match g.containing(p) {
        Containing::Run(run) => {
            let next = run.0 as usize + 1;
            let ended = is_next(p.0, g.graph.starts[next]);
            ParentCounts {
                held: t.held + 1,
                splits: t.splits + usize::from(!ended),
                ..t
            }
        }
        Containing::Unknown => ParentCounts {
            unknown: t.unknown + 1,
            ..t
        },
        Containing::Before => t,
    }
}

// The same for all parents.
fn count_parents(g: &HeldGraph, ps: &[u32]) -> ParentCounts
    ensures { result ≡ count_parents g.now.graph.starts g.now.graph.run_count ps.now }
{
    let mut t = ParentCounts {
        unknown: 0,
        held: 0,
        splits: 0,
    };
    for p in ps {
        t = count_parent(g, t, EventIndex(*p));
    }
    t
}

// A push whose parents are known events, rising, and whose events fit: growth, or refusals 6, 7, 8, or a new run.
fn push_known(
    g: &mut HeldGraph,
    ps: &[u32],
    n: u32,
    counts: ParentCounts,
) -> Result<(EventIndex, EventIndex), Refusal>
    requires rising { rising ps.now ≡ true }
    requires known { all_known (view g.old.graph) ps.now ≡ true }
    requires some_events { 0 < n }
    requires events_fit { len (view g.old.graph) + n < 2 ^ 32 }
    requires counted { counts ≡ count_parents g.old.graph.starts g.old.graph.run_count ps.now }
    ensures { record { graph = g.new.graph; answer = result } ≡ push_held_of g.old.graph ps.now n }
{
    let start = g.len();
    let end = start.0 + n;
    if does_extend(g, ps) {
        let grown = Growth { graph: g, more: n }.grow_last();
        *g = HeldGraph { graph: grown };
        return Ok((start, EventIndex(end)));
    }
    if over(MAX_RUNS, g.graph.run_count + 1, counts.splits) {
        return Err(Refusal::TooManyRuns);
    }
    if over(
        MAX_ENTRIES,
        g.graph.entry_count + counts.splits,
        counts.held,
    ) {
        return Err(Refusal::TooManyEntries);
    }
    let left = lists::keep_all(g.frontier(), ps);
    if MAX_FRONTIER < left.len() + 1 {
        return Err(Refusal::FrontierTooLong);
    }
    let parted = split_all(*g, ps, counts.splits);
    let joined = Growth {
        graph: &parted,
        more: n,
    }
    .join(ps);
    *g = HeldGraph { graph: joined };
    Ok((start, EventIndex(end)))
}

// `push` on a graph that is known not to be broken: refused, it stays as it was.
pub fn push_held(
    g: &mut HeldGraph,
    parents: &[u32],
    len: u32,
) -> Result<(EventIndex, EventIndex), Refusal>
    ensures { record { graph = g.new.graph; answer = result } ≡ push_held_of g.old.graph parents.now len }
{
    if len == 0 {
        return Err(Refusal::NoEvents);
    }
    if !lists::is_rising(parents) {
        return Err(Refusal::NotRising);
    }
    let counts = count_parents(g, parents);
    if 0 < counts.unknown {
        return Err(Refusal::UnknownEvent);
    }
    let start = g.len();
    if over(MAX_LEN as usize, start.0 as usize, len as usize) {
        return Err(Refusal::TooManyEvents);
    }
    push_known(g, parents, len, counts)
}

// Appends a chain of `len` events whose first has `parents`, and answers the first of them and the end. Alike `start_run_at` but for the call:
// one function for both would take it as a closure, and its contract would say the call's equation again.
pub fn push(g: CausalGraph, parents: &[u32], len: u32) -> Changed<(EventIndex, EventIndex)>
    ensures { result ≡ push_of g parents.now len }
{
    match HeldGraph::of(g) {
        Ok(mut held) => {
            let answer = push_held(&mut held, parents, len);
            Changed {
                graph: held.graph,
                answer,
            }
        }
        Err(r) => refused(g, r),
    }
}
