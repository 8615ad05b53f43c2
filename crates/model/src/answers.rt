// What the calls of 01 answer, and 01's number of each refusal.
use crate::limits::{MAX_FRONTIER, MAX_RUNS};
use crate::record::{CausalGraph, EventRunIndex};

// 01, "What a refused call gives": a variant for each row of the table, named by its case.
#[derive(Clone, Copy, Debug, PartialEq, Eq)]
pub enum Refusal {
    Broken,
    NoEvents,
    NotRising,
    UnknownEvent,
    TooManyEvents,
    TooManyRuns,
    TooManyEntries,
    FrontierTooLong,
    Outside,
    Unmarked,
    ListTooShort,
    KnownTooLong,
    RowsTooLong,
    BookTooShort,
    BookTooLong,
    UnknownKind,
    NoSuchParents,
}

// 01's number of a refusal: the one place in code that knows it.
impl From<Refusal> for u32 {
    ghost use Rattle.std.specs.Prelude.{◌≡◌};
    ghost use Rattle.model.specs.Refusals;

    ghost from_gives = { λ r n. n ≡ Refusals.number r };

    #[tactic(auto, unfolding(crate::specs::Refusals::number))]
    fn from(r: Refusal) -> u32 {
        match r {
            Refusal::Broken => 1,
            Refusal::NoEvents => 2,
            Refusal::NotRising => 3,
            Refusal::UnknownEvent => 4,
            Refusal::TooManyEvents => 5,
            Refusal::TooManyRuns => 6,
            Refusal::TooManyEntries => 7,
            Refusal::FrontierTooLong => 8,
            Refusal::Outside => 9,
            Refusal::Unmarked => 10,
            Refusal::ListTooShort => 11,
            Refusal::KnownTooLong => 12,
            Refusal::RowsTooLong => 13,
            Refusal::BookTooShort => 14,
            Refusal::BookTooLong => 15,
            Refusal::UnknownKind => 16,
            Refusal::NoSuchParents => 17,
        }
    }
}

// Where an event lies: in a run; before the graph; or not yet known.
#[derive(Clone, Copy)]
pub enum Containing {
    Run(EventRunIndex),
    Before,
    Unknown,
}

// The graph after a call that may change it, refused or not, and what the call answers: of `after` nothing, of a push the first of the
// new events and their end, exclusive, of a run start a truth, of a take the run. A refused `after` gives the graph of `new`.
#[derive(Clone, Copy)]
pub struct Changed<T> {
    pub graph: CausalGraph,
    pub answer: Result<T, Refusal>,
}

// A run's parents, which are runs: `count` of them, then zeros. An array and a count, since 01's answers are values of one size; a type beside
// `FrontierEvents`, since runs must not be taken for events.
#[derive(Clone, Copy)]
pub struct ParentRuns {
    pub runs: [u32; MAX_RUNS],
    pub count: usize,
}

// The frontier, which is events: `count` of them, then zeros. An array and a count, since 01's answers are values of one size; a type beside
// `ParentRuns`, since events must not be taken for runs.
#[derive(Clone, Copy)]
pub struct FrontierEvents {
    pub events: [u32; MAX_FRONTIER],
    pub count: usize,
}

// How many whole records were written into a lent list: where a later one did not fit too, so it stands beside the outcome.
#[derive(Clone, Copy)]
pub struct Written {
    pub count: usize,
    pub outcome: Result<(), Refusal>,
}

// How many steps a walk or a full replay wrote, and how many events its written retreats and advances hold; refused or not.
#[derive(Clone, Copy)]
pub struct Walked {
    pub count: u64,
    pub moved: u64,
    pub outcome: Result<(), Refusal>,
}

// Why a book was not taken whole: it is refused; or its push `k` is.
#[derive(Clone, Copy)]
pub enum BookRefusal {
    Refused(Refusal),
    PushRefused(Refusal, u32),
}

// The graph that a book gives, as far as it was taken.
#[derive(Clone, Copy)]
pub struct BookRead {
    pub graph: CausalGraph,
    pub answer: Result<(), BookRefusal>,
}
