// Words read as a start or a call, and the words after it.
ghost use Rattle.std.specs.Prelude.{◌≡◌, List, ℕ, ◌∷◌, ◌++◌, ◌+◌, ◌<◌, length, get_or, MatchOption};
ghost use Rattle.model.specs.Log;
ghost use Rattle.model.specs.Log.{answer};
ghost use Rattle.calls.specs.Words.{start_size, call_size, start_words, call_words};
ghost use Rattle.calls.specs.Said.{is_lent, operation_word, start_said, call_said};

use crate::forms::Form;
use model::{CausalGraph, EventIndex};

// How a list of calls starts.
#[derive(Clone, Copy)]
pub(crate) enum Start<'a> {
    New,
    After(EventIndex, &'a [u32]),
}

// A call, with the list that it is given.
#[derive(Clone, Copy)]
pub(crate) enum Call<'a> {
    Push(&'a [u32], u32),
    StartRunAt(EventIndex),
    TakeChangedFrom,
}

// What the first word of a call says.
#[derive(Clone, Copy)]
enum Operation {
    Push,
    StartRunAt,
    TakeChangedFrom,
}

// A count, as many words as it says, and the words after these; none where they end first.
fn list<'a>(words: &'a [u32]) -> Option<(&'a [u32], &'a [u32])>
    ensures { MatchOption result (length words.now < 1 + get_or words.now 0 0)
        (λ t. words.now ≡ length t.0.now ∷ (t.0.now ++ t.1.now)) }
{
    let (count, rest) = words.split_first()?;
    rest.split_at_checked(*count as usize)
}

// The start that words begin with; none where it is missing, unknown or cut off.
#[tactic(auto, using(crate::proofs::Reading::no_start), unfolding(crate::specs::Words::start_words))]
pub(crate) fn next_start<'a>(words: &'a [u32]) -> Option<(Start<'a>, &'a [u32])>
    ensures { MatchOption result (start_size words.now ≡ 0) (λ t. words.now ≡ start_words (start_said t.0) ++ t.1.now) }
{
    let (operation, rest) = words.split_first()?;
    match *operation {
        0 => Some((Start::New, rest)),
        1 => {
            let (first, rest) = rest.split_first()?;
            let (frontier, rest) = list(rest)?;
            Some((Start::After(EventIndex(*first), frontier), rest))
        }
        _ => None,
    }
}

impl Operation {
    // What a call's first word says, and whether lent. No `TryFrom`: it answers two values, in a pair that is no type of this crate.
    fn said(word: u32) -> Option<(Form, Operation)>
        ensures { MatchOption result ((ws : List ℕ) → call_size (word ∷ ws) ≡ 0) (λ t. word ≡ operation_word (is_lent t.0) t.1) }
    {
        match word {
            2 => Some((Form::ByValue, Operation::Push)),
            3 => Some((Form::ByValue, Operation::StartRunAt)),
            4 => Some((Form::ByValue, Operation::TakeChangedFrom)),
            16 => Some((Form::Lent, Operation::Push)),
            17 => Some((Form::Lent, Operation::StartRunAt)),
            18 => Some((Form::Lent, Operation::TakeChangedFrom)),
            _ => None,
        }
    }
}

// The call that words begin with; none where it is missing, unknown or cut off.
#[tactic(auto, using(crate::proofs::Reading::no_call), unfolding(crate::specs::Words::call_words))]
pub(crate) fn next_call<'a>(words: &'a [u32]) -> Option<(Form, Call<'a>, &'a [u32])>
    ensures { MatchOption result (call_size words.now ≡ 0) (λ t. words.now ≡ call_words (is_lent t.0) (call_said t.1) ++ t.2.now) }
{
    let (word, rest) = words.split_first()?;
    let (form, operation) = Operation::said(*word)?;
    match operation {
        Operation::Push => {
            let (len, rest) = rest.split_first()?;
            let (parents, rest) = list(rest)?;
            Some((form, Call::Push(parents, *len), rest))
        }
        Operation::StartRunAt => {
            let (at, rest) = rest.split_first()?;
            Some((form, Call::StartRunAt(EventIndex(*at)), rest))
        }
        Operation::TakeChangedFrom => Some((form, Call::TakeChangedFrom, rest)),
    }
}

impl<'a> Start<'a> {
    // The graph that the start makes.
    #[tactic(auto, unfolding(model::specs::Log::begin))]
    pub(crate) fn begin(self) -> CausalGraph
        ensures { result ≡ (Log.begin (start_said self.entry)).1 }
    {
        match self {
            Start::New => graph::fresh::new(),
            Start::After(first, frontier) => {
                let made = graph::fresh::after(first, frontier);
                made.graph
            }
        }
    }
}

impl<'a> Call<'a> {
    // The graph that the call leaves.
    pub(crate) fn make(self, form: Form, g: CausalGraph) -> CausalGraph
        ensures { result ≡ (answer g (call_said self.entry)).1 }
    {
        match self {
            Call::Push(parents, len) => {
                let pushed = form.push(g, parents, len);
                pushed.graph
            }
            Call::StartRunAt(at) => {
                let started = form.start_run_at(g, at);
                started.graph
            }
            Call::TakeChangedFrom => {
                let taken = form.take_changed_from(g);
                taken.graph
            }
        }
    }
}
