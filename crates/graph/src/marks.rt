// The marks of a graph, in two linear passes.
ghost use Rattle.std.specs.Prelude.{◌≡◌, ℕ, ◌<◌, ◌≤◌, get_or, length, drop};
ghost use Rattle.model.specs.Limits.{max_runs};
ghost use Rattle.graph.specs.Loops.{lowest, marks_of, marked};

use lists::Kept;
use model::{CausalGraph, MAX_LEN, MAX_RUNS};

// The least seen length from each run on. That an array of fixed size has room for them is a clause, here and in `marks_of`: no heap is
// used, and a type of short slices would ask it where each is made.
fn lows(seen: &[u32]) -> [u32; MAX_RUNS]
    requires { length seen.now ≤ max_runs }
    ensures { (k : ℕ) → k < length seen.now → get_or result k 0 ≡ lowest (drop k seen.now) }
{
    let mut a = lists::zeros();
    let mut low: u32 = MAX_LEN;
    for i in (0..seen.len()).rev() {
        low = seen[i].min(low);
        a[i] = low;
    }
    a
}

// The runs of which every run from it on has seen at least its start. The end stands after the starts. A filter
// of its own, as `lists::keep_all` is: it goes over two lists at once.
pub fn marks_of<'a>(starts: &'a [u32], seen: &'a [u32]) -> Kept
    requires starts_cover { length seen.now < length starts.now }
    requires few { length seen.now ≤ max_runs }
    ensures { result ≡ marks_of 0 starts.now seen.now }
{
    let low = lows(seen);
    let mut marks = Kept::new();
    for i in 0..seen.len() {
        marks.push_if(starts[i] <= low[i], i as u32);
    }
    marks
}

// Puts the marks that a record's starts and seen lengths give.
#[tactic(auto, unfolding(crate::specs::Loops::marked, crate::specs::Loops::with_parts))]
pub(crate) fn mark(g: &mut CausalGraph)
    requires { g.old.run_count ≤ max_runs }
    ensures { g.new ≡ marked g.old }
{
    let runs = g.run_count;
    let marks = marks_of(&g.starts[..runs + 1], &g.seen_prefix_len[..runs]);
    g.mark_count = marks.len();
    g.critical_versions = marks.into_array();
}
