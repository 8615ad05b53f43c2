// Steps, as a step reader hands them out.
use crate::record::EventRunIndex;

// A step of a walk or a full replay: the paper's retreat, advance and apply, over runs (first run and end run,
// exclusive), and 01's Open.
#[derive(Clone, Copy)]
pub enum WalkStep {
    Retreat(EventRunIndex, EventRunIndex),
    Advance(EventRunIndex, EventRunIndex),
    Apply(EventRunIndex),
    Open(EventRunIndex, EventRunIndex),
}
