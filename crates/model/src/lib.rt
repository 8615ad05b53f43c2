#![tactic(auto)]

// Document 01's data: the graph record, the calls' answers, steps and the book's answer. What each call of 01 answers on
// every input is defined in specs/; that the definitions are right is claimed in specs/ and proved in proofs/.
pub mod answers;
pub mod claims;
pub mod limits;
pub mod record;
pub mod steps;

pub use answers::{
    BookRead, BookRefusal, Changed, Containing, FrontierEvents, ParentRuns, Refusal, Walked,
    Written,
};
pub use limits::{
    COVER_BITS, LENT_ROWS, LENT_STEPS, MAX_BOOK, MAX_ENTRIES, MAX_FRONTIER, MAX_LEN, MAX_RUNS,
    MAX_STARTS, MAX_WEIGHED,
};
pub use record::{CausalGraph, EventIndex, EventRunIndex};
pub use steps::WalkStep;
