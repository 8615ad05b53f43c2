// What is read off a graph.
ghost use Rattle.std.specs.Prelude.{◌≡◌, true, ◌-◌, ◌<◌, ◌≤◌, length};
ghost use Rattle.lists.specs.Lists.{rising};
ghost use Rattle.model.specs.Limits.{max_starts};
ghost use Rattle.model.specs.Answers.{containing_at};
ghost use Rattle.graph.specs.Loops.{side_in};
ghost use Rattle.model.specs.Lookups.{
  start_of,
  events_of,
  parents_of,
  containing_of,
  len_of,
  is_empty_of,
  frontier_of,
  extends_last_event_of,
  first_held_event_of,
};

use crate::held::HeldGraph;
use model::{
    CausalGraph, Containing, EventIndex, EventRunIndex, FrontierEvents, MAX_FRONTIER, MAX_RUNS,
    ParentRuns, Refusal,
};

// A run's first event; for one past the last run, the number of events.
pub fn start(g: CausalGraph, run: EventRunIndex) -> Result<EventIndex, Refusal>
    ensures { result ≡ start_of g run.0 }
{
    let g = HeldGraph::of(g)?.graph;
    let n = run.0 as usize;
    if g.run_count < n {
        return Err(Refusal::Outside);
    }
    Ok(EventIndex(g.starts[n]))
}

// A run's events: the first and the end.
pub fn events(g: CausalGraph, run: EventRunIndex) -> Result<(EventIndex, EventIndex), Refusal>
    ensures { result ≡ events_of g run.0 }
{
    let g = HeldGraph::of(g)?.graph;
    let n = run.0 as usize;
    if g.run_count <= n {
        return Err(Refusal::Outside);
    }
    let next = n + 1;
    Ok((EventIndex(g.starts[n]), EventIndex(g.starts[next])))
}

// The runs whose last events are the parents of a run's first event.
pub fn parents(g: CausalGraph, run: EventRunIndex) -> Result<ParentRuns, Refusal>
    ensures { result ≡ parents_of g run.0 }
{
    let g = HeldGraph::of(g)?.graph;
    let n = run.0 as usize;
    if g.run_count <= n {
        return Err(Refusal::Outside);
    }
    let next = n + 1;
    let from = g.parent_starts[n] as usize;
    let to = g.parent_starts[next] as usize;
    let entries = g.parents;
    let runs = crate::fresh::padded(&entries[from..to]);
    Ok(ParentRuns {
        runs,
        count: to - from,
    })
}

// Where an event lies, by a look from the end of the starts on, and not by halves: most events that are asked for are recent.
fn from_the_end(starts: &[u32], event: EventIndex) -> Containing
    requires some { 0 < length starts.now }
    requires few { length starts.now ≤ max_starts }
    requires rises { rising starts.now ≡ true }
    ensures { result ≡ containing_at (side_in starts.now (length starts.now - 1) event.0) }
{
    let Some(place) = starts.iter().rposition(|s| EventIndex(*s) <= event) else {
        return Containing::Before;
    };
    if place + 1 == starts.len() {
        return Containing::Unknown;
    }
    Containing::Run(EventRunIndex(place as u32))
}

// Where an event lies, by the rising starts of the runs and the end after them. No other function compares an event with the first held
// one or with the number of events to tell that. One before the graph is told by the first start alone, however many runs there are.
pub(crate) fn containing_in(starts: &[u32], event: EventIndex) -> Containing
    requires some { 0 < length starts.now }
    requires few { length starts.now ≤ max_starts }
    requires rises { rising starts.now ≡ true }
    ensures { result ≡ containing_at (side_in starts.now (length starts.now - 1) event.0) }
{
    if event.0 < starts[0] {
        return Containing::Before;
    }
    from_the_end(starts, event)
}

// The run that holds an event, or on which side of the graph it lies.
pub fn containing(g: CausalGraph, event: EventIndex) -> Result<Containing, Refusal>
    ensures { result ≡ containing_of g event.0 }
{
    let g = HeldGraph::of(g)?;
    Ok(g.containing(event))
}

// The number of events, including those before the first held one.
pub fn len(g: CausalGraph) -> Result<EventIndex, Refusal>
    ensures { result ≡ len_of g }
{
    let g = HeldGraph::of(g)?;
    Ok(g.len())
}

// Whether there are no runs.
pub fn is_empty(g: CausalGraph) -> Result<bool, Refusal>
    ensures { result ≡ is_empty_of g }
{
    let g = HeldGraph::of(g)?.graph;
    Ok(g.run_count == 0)
}

// The frontier, rising.
pub fn frontier(g: CausalGraph) -> Result<FrontierEvents, Refusal>
    ensures { result ≡ frontier_of g }
{
    let g = HeldGraph::of(g)?.graph;
    let events = g.frontier;
    Ok(FrontierEvents {
        events,
        count: g.frontier_count,
    })
}

// Whether an event with `parents` extends the last event's run.
pub fn extends_last_event(g: CausalGraph, parents: &[u32]) -> Result<bool, Refusal>
    ensures { result ≡ extends_last_event_of g parents.now }
{
    let g = HeldGraph::of(g)?;
    Ok(crate::pushing::does_extend(&g, parents))
}

pub fn first_held_event(g: CausalGraph) -> Result<EventIndex, Refusal>
    ensures { result ≡ first_held_event_of g }
{
    let g = HeldGraph::of(g)?.graph;
    Ok(EventIndex(g.starts[0]))
}
