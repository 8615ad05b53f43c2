// A graph that is known not to be broken: what reads its arrays takes one, so that the test is made once. And a call that changes nothing.
ghost use Rattle.std.specs.Prelude.{◌≡◌, true, false, Err, IfOk, IfErr};
ghost use Rattle.model.specs.Answers.{containing_at};
ghost use Rattle.model.specs.Graph.{len, marks, side};
ghost use Rattle.model.specs.Record.{view};
ghost use Rattle.model.specs.Broken.{Held, broken};

use crate::broken::is_broken;
use crate::lookups::containing_in;
use model::{CausalGraph, Changed, Containing, EventIndex, Refusal};

// A graph that is not broken.
#[derive(Clone, Copy)]
pub struct HeldGraph {
    pub graph: CausalGraph,
    ghost held: { Held graph },
}

impl HeldGraph {
    // Refused where the graph is broken.
    pub fn of(g: CausalGraph) -> Result<HeldGraph, Refusal>
        ensures ok { IfOk result (λ h. (h.graph ≡ g) × (broken h.graph ≡ false)) }
        ensures err { IfErr result (λ r. (r ≡ Refusal.Broken) × (broken g ≡ true)) }
    {
        if is_broken(g) {
            return Err(Refusal::Broken);
        }
        Ok(HeldGraph { graph: g })
    }

    // A graph that its maker knows not to be broken, untested.
    pub fn known(g: CausalGraph) -> HeldGraph
        requires { Held g }
        ensures { result.graph ≡ g }
    {
        HeldGraph { graph: g }
    }

    // The number of events, including those before the first held one.
    pub fn len(&self) -> EventIndex
        ensures { result.0 ≡ len (view self.now.graph) }
    {
        EventIndex(self.graph.starts[self.graph.run_count])
    }

    // Where the runs start, and the end after them.
    pub fn starts(&self) -> &[u32]
        ensures { result.now ≡ (view self.now.graph).starts }
    {
        &self.graph.starts[..self.graph.run_count + 1]
    }

    // The frontier, rising.
    pub fn frontier(&self) -> &[u32]
        ensures { result.now ≡ (view self.now.graph).frontier }
    {
        &self.graph.frontier[..self.graph.frontier_count]
    }

    // The marked runs, rising.
    pub fn marks(&self) -> &[u32]
        ensures { result.now ≡ marks (view self.now.graph) }
    {
        &self.graph.critical_versions[..self.graph.mark_count]
    }

    // The run that holds an event, or on which side of the graph it lies.
    pub fn containing(&self, event: EventIndex) -> Containing
        ensures { result ≡ containing_at (side (view self.now.graph) event.0) }
    {
        containing_in(self.starts(), event)
    }
}

// The graph as it was, and why.
pub(crate) fn refused<T>(graph: CausalGraph, r: Refusal) -> Changed<T>
    ensures { result ≡ record { graph = graph; answer = Err r } }
{
    Changed {
        graph,
        answer: Err(r),
    }
}
