// Fresh graphs.
ghost use Rattle.std.specs.Prelude.{◌≡◌, ◌≤◌, length};
ghost use Rattle.lists.specs.Scans.{max_kept};
ghost use Rattle.lists.specs.Areas.{pad};
ghost use Rattle.model.specs.Limits.{max_frontier};
ghost use Rattle.model.specs.Record.{store};
ghost use Rattle.model.specs.Fresh;
ghost use Rattle.model.specs.Fresh.{new_of, after_of};

use crate::held::refused;
use lists::MAX_KEPT;
use model::{CausalGraph, Changed, EventIndex, EventRunIndex, MAX_FRONTIER, Refusal};

// The list, and zeros after it.
pub(crate) fn padded(s: &[u32]) -> [u32; MAX_KEPT]
    requires { length s.now ≤ max_kept }
    ensures { result ≡ pad max_kept s.now }
{
    let mut a = lists::zeros();
    a[..s.len()].copy_from_slice(s);
    a
}

// A graph with no runs after the first `events` events.
fn fresh_held(events: EventIndex, frontier: &[u32]) -> CausalGraph
    requires { length frontier.now ≤ max_frontier }
    ensures { result ≡ store (Fresh.fresh events.0 frontier.now) }
{
    let mut starts = lists::zeros();
    starts[0] = events.0;
    let from = EventRunIndex(0);
    CausalGraph {
        starts,
        parent_starts: lists::zeros(),
        parents: lists::zeros(),
        frontier: padded(frontier),
        seen_prefix_len: lists::zeros(),
        critical_versions: lists::zeros(),
        run_count: 0,
        entry_count: 0,
        frontier_count: frontier.len(),
        mark_count: 0,
        changed_from: from,
    }
}

// A graph of no events.
#[tactic(auto, unfolding(model::specs::Fresh::new_of))]
pub fn new() -> CausalGraph
    ensures { result ≡ new_of }
{
    fresh_held(EventIndex(0), &[])
}

// A graph of the events after the first `events`, which every later event has seen and whose frontier is `frontier`.
pub fn after(events: EventIndex, frontier: &[u32]) -> Changed<()>
    ensures { result ≡ after_of events.0 frontier.now }
{
    if !lists::is_rising(frontier) {
        return refused(new(), Refusal::NotRising);
    }
    if !lists::all_below(frontier, events.0) {
        return refused(new(), Refusal::UnknownEvent);
    }
    if MAX_FRONTIER < frontier.len() {
        return refused(new(), Refusal::FrontierTooLong);
    }
    Changed {
        graph: fresh_held(events, frontier),
        answer: Ok(()),
    }
}
