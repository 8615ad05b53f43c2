// The runs that are concurrent with a run, into a lent list.
ghost use Rattle.std.specs.Prelude.{◌≡◌, true, ◌-◌, ◌≤◌, ◌<◌, length, leb, All};
ghost use Rattle.std.specs.List.{list_any};
ghost use Rattle.model.specs.Limits.{max_runs};
ghost use Rattle.model.specs.Answers.{answer_or};
ghost use Rattle.model.specs.Lookups.{lookup};
ghost use Rattle.model.specs.Graph.{runs};
ghost use Rattle.model.specs.Record.{view};
ghost use Rattle.model.specs.Beside.{concurrency_list, concurrency_list_of};
ghost use Rattle.versions.specs.Parents.{parents_in, runs_in};
ghost use Rattle.versions.specs.Flags.{flag_all, flag_parents, flag_down, flagged, flag_child, flag_up, free, Flags};

use crate::rows::ParentRows;
use crate::words::put_all;
use graph::held::HeldGraph;
use lists::Kept;
use model::{CausalGraph, EventRunIndex, MAX_RUNS, Refusal, Written};

// Flags some runs. That they lie inside the list is asked here and by five functions more: parents are plain numbers, below another bound in
// each, and a type of numbers below a bound would say each bound again.
#[tactic(auto, using(crate::proofs::Passes::flagging))]
pub(crate) fn flag_all(flags: &mut [bool], runs: &[u32])
    requires { All (λ p. p < length flags.old) runs.now }
    ensures { flags.new ≡ flag_all flags.old runs.now }
{
    for p in runs {
        flags[*p as usize] = true;
    }
}

// The parents of a run are flagged if it is.
#[tactic(auto, using(crate::proofs::Passes::row_each), unfolding(crate::specs::Flags::flag_parents))]
fn flag_parents(flags: &mut [bool; MAX_RUNS], parents: ParentRows, run: EventRunIndex)
    requires { run.0 < runs_in parents }
    ensures { flags.new ≡ flag_parents (parents_in parents.entry) flags.old run.0 }
{
    if flags[run.0 as usize] {
        flag_all(flags, parents.of(run.0 as usize));
    }
}

// The same of the runs before `end`, from the last down.
#[tactic(auto, using(crate::proofs::Passes::down_next, crate::proofs::Passes::down_none))]
fn flag_down(flags: &mut [bool; MAX_RUNS], parents: ParentRows, end: EventRunIndex)
    requires { end.0 ≤ runs_in parents }
    ensures { flags.new ≡ flag_down (parents_in parents.entry) flags.old end.0 }
{
    for c in (0..end.0).rev() {
        flag_parents(flags, parents, EventRunIndex(c));
    }
}

// Whether some of the runs is not below `run`, and flagged.
#[tactic(auto, unfolding(crate::specs::Flags::flagged))]
fn has_flagged(flags: &[bool], run: EventRunIndex, runs: &[u32]) -> bool
    requires { All (λ p. p < length flags.now) runs.now }
    ensures { result ≡ list_any (flagged flags.now run.0) runs.now }
{
    runs.iter()
        .any(|p| run <= EventRunIndex(*p) && flags[*p as usize])
}

// A run is flagged if it has such a parent.
#[tactic(auto, using(crate::proofs::Passes::rising_up), unfolding(crate::specs::Flags::flag_child))]
fn flag_child(
    flags: &mut [bool; MAX_RUNS],
    run: EventRunIndex,
    parents: ParentRows,
    q: EventRunIndex,
)
    requires { q.0 < runs_in parents }
    ensures { flags.new ≡ flag_child (parents_in parents.entry) run.0 flags.old q.0 }
{
    let flag = has_flagged(flags, run, parents.of(q.0 as usize));
    flags[q.0 as usize] = flag;
}

// The same of the runs from `from` on.
#[tactic(auto, using(crate::proofs::Passes::up_next, crate::proofs::Passes::up_none))]
fn flag_up(
    flags: &mut [bool; MAX_RUNS],
    run: EventRunIndex,
    parents: ParentRows,
    from: EventRunIndex,
)
    ensures { flags.new ≡ flag_up (parents_in parents.entry) run.0 flags.old from.0 (runs_in parents.entry - from.0) }
{
    for q in from.0 as usize..parents.len() {
        flag_child(flags, run, parents, EventRunIndex(q as u32));
    }
}

// A flag for each run that is an ancestor of `run`, `run` itself, or a descendant.
fn flags_of(g: &HeldGraph, run: EventRunIndex) -> [bool; MAX_RUNS]
    requires { run.0 < g.now.graph.run_count }
    ensures { Flags (view g.now.graph) run.0 result }
{
    let parents = ParentRows::of_graph(g);
    let next = EventRunIndex(run.0 + 1);
    let mut flags = [false; MAX_RUNS];
    flags[run.0 as usize] = true;
    flag_down(&mut flags, parents, next);
    flag_up(&mut flags, run, parents, next);
    flags
}

// The runs that have no flag.
// Their number is bounded by a clause: no heap is used, and that a `Kept` of fixed memory has room for all is no part of a slice's type.
#[tactic(auto, using(crate::proofs::Passes::freeing))]
fn free_runs(flags: &[bool]) -> Kept
    requires { length flags.now ≤ max_runs }
    ensures { result ≡ free flags.now (length flags.now) }
{
    let mut runs = Kept::new();
    for (q, flag) in flags.iter().enumerate() {
        runs.push_if(!*flag, q as u32);
    }
    runs
}

// The runs that are neither ancestor nor descendant of `run`, nor `run` itself, rising; or why they are not told.
#[tactic(auto, using(crate::proofs::GraphRows::few_runs))]
fn concurrent_words(g: CausalGraph, run: EventRunIndex) -> Result<Kept, Refusal>
    ensures { result ≡ answer_or (lookup g (leb (runs (view g)) run.0)) (concurrency_list (view g) run.0) }
{
    let g = HeldGraph::of(g)?;
    let n = g.graph.run_count;
    if n <= run.0 as usize {
        return Err(Refusal::Outside);
    }
    let flags = flags_of(&g, run);
    Ok(free_runs(&flags[..n]))
}

// The runs that are neither ancestor nor descendant of `run`, nor `run` itself, into `list`, rising; none where they do not fit.
#[tactic(auto, using(crate::proofs::ConcurrentWays::is_put))]
pub fn concurrent_runs(g: CausalGraph, run: EventRunIndex, list: &mut [u32]) -> Written
    ensures { (result, list.new) ≡ concurrency_list_of g run.0 list.old }
{
    put_all(concurrent_words(g, run), list)
}
