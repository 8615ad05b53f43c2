#![tactic(auto)]

// A list of calls given as words, made by the public calls: a fresh start, then pushes, run starts and takes, each by value or lent.
// specs/ says which calls the words are.
mod forms;
mod said;

ghost use Rattle.std.specs.Prelude.{◌≡◌};
ghost use Rattle.calls.specs.Words.{calls_after, called_by, graph_after, EveryList};
ghost use Rattle.calls.specs.Again.{StartsAgain};

pub use forms::Form;
use model::{CausalGraph, EventIndex, Refusal};

// Makes the calls that words say.
fn calls(begun: CausalGraph, words: &[u32]) -> CausalGraph
    ensures { result ≡ graph_after begun (calls_after 0 words.now) }
{
    let mut g = begun;
    let mut left = words;
    while let Some((form, call, rest)) = said::next_call(left) {
        g = call.make(form, g);
        left = rest;
    }
    g
}

// The graph that a list of calls makes.
pub fn made_by(words: &[u32]) -> CausalGraph
    ensures { result ≡ (called_by words.now).0 }
{
    let Some((start, rest)) = said::next_start(words) else {
        return graph::fresh::new();
    };
    calls(start.begin(), rest)
}

// Words can say every list of calls, so that what is said of words is about all of them: a claim, as the contract of a function with nothing
// to do.
#[tactic(auto, using(crate::proofs::Covering::every_list))]
pub fn every_list()
    ensures { EveryList }
{}

// What two run starts at one event answered, the graph that the later one was given, and the one that it left.
#[derive(Clone, Copy)]
pub struct StartedAgain {
    pub first: Result<bool, Refusal>,
    pub given: CausalGraph,
    pub again: Result<bool, Refusal>,
    pub left: CausalGraph,
}

// The calls that `words` says, a run start at `at`, the calls that `between` says, and a run start at `at` again; each of the two in a form of
// its own.
pub fn start_again(
    words: &[u32],
    at: EventIndex,
    between: &[u32],
    first_form: Form,
    again_form: Form,
) -> StartedAgain
    ensures { StartsAgain words.now at.0 between.now result }
{
    let started = first_form.start_run_at(made_by(words), at);
    let given = calls(started.graph, between);
    let started_again = again_form.start_run_at(given, at);
    StartedAgain {
        first: started.answer,
        given,
        again: started_again.answer,
        left: started_again.graph,
    }
}
