// The two forms of the calls that change a graph, which answer the same.
ghost use Rattle.std.specs.Prelude.{◌≡◌};
ghost use Rattle.model.specs.Push.{push_of};
ghost use Rattle.model.specs.Start.{start_run_at_of, take_changed_from_of};

use model::{CausalGraph, Changed, EventIndex, EventRunIndex};

// A call takes the graph and gives one back, or changes one that it is lent: a copy, here, so that both forms answer by value.
#[derive(Clone, Copy)]
pub enum Form {
    ByValue,
    Lent,
}

// Three methods, alike but for the call: each call has parameters, an answer and an equation of its own, which a trait would say again.
impl Form {
    // Pushes events.
    pub fn push(
        self,
        g: CausalGraph,
        parents: &[u32],
        len: u32,
    ) -> Changed<(EventIndex, EventIndex)>
        ensures { result ≡ push_of g parents.now len }
    {
        match self {
            Form::ByValue => graph::pushing::push(g, parents, len),
            Form::Lent => {
                let mut h = g;
                let answer = lent::push(&mut h, parents, len);
                Changed { graph: h, answer }
            }
        }
    }

    // Starts a run.
    pub fn start_run_at(self, g: CausalGraph, at: EventIndex) -> Changed<bool>
        ensures { result ≡ start_run_at_of g at.0 }
    {
        match self {
            Form::ByValue => graph::starting::start_run_at(g, at),
            Form::Lent => {
                let mut h = g;
                let answer = lent::start_run_at(&mut h, at);
                Changed { graph: h, answer }
            }
        }
    }

    // Takes the first changed run.
    pub fn take_changed_from(self, g: CausalGraph) -> Changed<EventRunIndex>
        ensures { result ≡ take_changed_from_of g }
    {
        match self {
            Form::ByValue => graph::starting::take_changed_from(g),
            Form::Lent => {
                let mut h = g;
                let answer = lent::take_changed_from(&mut h);
                Changed { graph: h, answer }
            }
        }
    }
}
