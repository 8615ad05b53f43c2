// The graph record of 01, "The graph record".
use crate::limits::{MAX_ENTRIES, MAX_FRONTIER, MAX_RUNS, MAX_STARTS};

// An event's number, in the order in which this replica learned of it.
#[derive(Clone, Copy, Debug, PartialEq, Eq, PartialOrd, Ord)]
pub struct EventIndex(pub u32);

// A run's position among the graph's runs, which shifts when an earlier run splits.
#[derive(Clone, Copy, Debug, PartialEq, Eq, PartialOrd, Ord)]
pub struct EventRunIndex(pub u32);

// An event graph: each event's parents, without its operation. Arrays with counts beside them, as 01's record is: a value of one size, of bare
// numbers, in which every place past a count is 0.
#[derive(Clone, Copy)]
pub struct CausalGraph {
    // Events: run i is events starts[i] up to, not including, starts[i + 1].
    pub starts: [u32; MAX_STARTS],
    // Places in `parents`: run i's parents stand from parent_starts[i] up to, not including, parent_starts[i + 1].
    pub parent_starts: [u32; MAX_STARTS],
    // Runs, grouped by run.
    pub parents: [u32; MAX_ENTRIES],
    // Events, rising.
    pub frontier: [u32; MAX_FRONTIER],
    // Events: per run, how long a prefix of history its first event has seen, or a lower bound of it.
    pub seen_prefix_len: [u32; MAX_RUNS],
    // Runs that start at a critical version, rising (01's marks).
    pub critical_versions: [u32; MAX_RUNS],
    pub run_count: usize,
    pub entry_count: usize,
    pub frontier_count: usize,
    pub mark_count: usize,
    // The first run that may have changed since the last take.
    pub changed_from: EventRunIndex,
}
