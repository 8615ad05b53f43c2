#![tactic(auto)]

// The walk over a range of runs, and full replay. `walking::walk` and `replaying::replay` are the calls of 01.
mod areas;
mod choice;
mod given;
mod ready;
pub mod replaying;
mod visiting;
pub mod walking;

use model::{MAX_RUNS, MAX_STARTS};

// The row words of any range: a word more for each run.
pub const MAX_ROWS: usize = MAX_RUNS * MAX_STARTS / 2;

// The words of a step list, or of another list, that a program lends.
pub const MAX_STEPS: usize = 524288;
