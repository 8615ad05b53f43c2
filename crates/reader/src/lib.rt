#![tactic(auto)]

// The step reader of 01, "Beside it": made over a written list, it hands out the list's steps in turn. `step_at` does the work.
ghost use Rattle.std.specs.Prelude.{◌≡◌, MatchOption};
ghost use Rattle.std.proofs.Math.Option.{none, some};
ghost use Rattle.model.specs.Reader.{decoded, next_of};
ghost use Rattle.reader.specs.Reading.{step_read, step_at, reader_at, next_from};
ghost use Rattle.reader.specs.RoundTrip.{RoundTrip};

use model::{EventRunIndex, Refusal, WalkStep};

// A step by its kind, first run and end run, as document 01 writes it; none where the kind is above 3. No `TryFrom`: a step is of another crate.
#[tactic(auto, unfolding(model::specs::Reader::decoded))]
pub fn step_of(kind: u32, a: EventRunIndex, b: EventRunIndex) -> Option<WalkStep>
    ensures { MatchOption result (decoded kind a.0 b.0 ≡ none) (λ s. decoded kind a.0 b.0 ≡ some (step_read s)) }
{
    match kind {
        0 => Some(WalkStep::Retreat(a, b)),
        1 => Some(WalkStep::Advance(a, b)),
        2 => Some(WalkStep::Apply(a)),
        3 => Some(WalkStep::Open(a, b)),
        _ => None,
    }
}

// What a reader at a place of a written list hands out, and the place where it then stands.
#[derive(Clone, Copy)]
pub struct StepAt {
    pub step: Result<Option<WalkStep>, Refusal>,
    pub at: usize,
}

fn answer(step: Result<Option<WalkStep>, Refusal>, at: usize) -> StepAt
    ensures { result ≡ step_at step at }
{
    StepAt { step, at }
}

// One `next` of a reader at a place, for callers that hold no reader: three words decoded by their kind; at the end and at an unknown kind
// the place stays.
pub fn step_at(words: &[u32], at: usize) -> StepAt
    ensures { (result.step, result.at) ≡ next_of words.now at }
{
    let left = words.get(at..).unwrap_or(&[]);
    let [kind, a, b, ..] = left else {
        return answer(Ok(None), at);
    };
    match step_of(*kind, EventRunIndex(*a), EventRunIndex(*b)) {
        Some(step) => answer(Ok(Some(step)), at + 3),
        None => answer(Err(Refusal::UnknownKind), at),
    }
}

// A reader over a written list, and where it stands in it.
#[derive(Clone, Copy)]
pub struct StepReader<'a> {
    pub words: &'a [u32],
    pub at: usize,
}

impl<'a> StepReader<'a> {
    // A reader at the start of a written list.
    pub fn new(words: &'a [u32]) -> Self
        ensures { result ≡ reader_at words.entry 0 }
    {
        StepReader { words, at: 0 }
    }

    // The next step, and the reader moves past it. At the end and at an unknown kind it stays.
    pub fn next(&mut self) -> Result<Option<WalkStep>, Refusal>
        ensures { (result, self.new) ≡ next_from self.old }
    {
        let got = step_at(self.words, self.at);
        self.at = got.at;
        got.step
    }
}

// What is written as steps is read as the same steps: a claim, as the contract of a function with nothing to do.
#[tactic(auto, using(crate::proofs::Back::round_trip))]
pub fn round_trip()
    ensures { RoundTrip }
{}
