#![tactic(auto)]

// The second form of the calls that change a graph: over a graph that the caller lends. Each answers what the call by value answers, and
// leaves the graph that it gives back; a refused call leaves the graph as it was. Three functions, alike but for the call: each call of 01
// has parameters, an answer and an equation of its own, which a trait would say again.
ghost use Rattle.std.specs.Prelude.{◌≡◌};
ghost use Rattle.model.specs.Push.{push_of};
ghost use Rattle.model.specs.Start.{start_run_at_of, take_changed_from_of};

use model::{CausalGraph, EventIndex, EventRunIndex, Refusal};

// `push` on a lent graph.
pub fn push(
    g: &mut CausalGraph,
    parents: &[u32],
    len: u32,
) -> Result<(EventIndex, EventIndex), Refusal>
    ensures { record { graph = g.new; answer = result } ≡ push_of g.old parents.now len }
{
    let pushed = graph::pushing::push(*g, parents, len);
    *g = pushed.graph;
    pushed.answer
}

// `start_run_at` on a lent graph.
pub fn start_run_at(g: &mut CausalGraph, at: EventIndex) -> Result<bool, Refusal>
    ensures { record { graph = g.new; answer = result } ≡ start_run_at_of g.old at.0 }
{
    let started = graph::starting::start_run_at(*g, at);
    *g = started.graph;
    started.answer
}

// `take_changed_from` on a lent graph.
pub fn take_changed_from(g: &mut CausalGraph) -> Result<EventRunIndex, Refusal>
    ensures { record { graph = g.new; answer = result } ≡ take_changed_from_of g.old }
{
    let taken = graph::starting::take_changed_from(*g);
    *g = taken.graph;
    taken.answer
}
