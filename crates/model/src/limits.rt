// 01's limits, each a number with a name. specs/Limits.antt has the same for definitions.

// The runs of a graph, and its marks, which are runs.
pub const MAX_RUNS: usize = lists::MAX_KEPT;

// The starts of runs: one more than runs.
pub const MAX_STARTS: usize = MAX_RUNS + 1;

// Parent entries: one for each parent of each run.
pub const MAX_ENTRIES: usize = 2048;

// Frontier events.
pub const MAX_FRONTIER: usize = lists::MAX_KEPT;

// How many events a graph can know of, held and before it.
pub const MAX_LEN: u32 = 4294967295;

// The bytes of a book.
pub const MAX_BOOK: usize = 65536;

// What the program `replay` lends to a full replay: row words, and steps.
pub const LENT_ROWS: usize = 8192;

pub const LENT_STEPS: usize = 4096;

// How many of the ready runs are weighed for the next visit.
pub const MAX_WEIGHED: usize = 64;

// The bits of a cover.
pub const COVER_BITS: usize = 127;
