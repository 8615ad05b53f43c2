// Archive points into a lent list, in linear time. A run's seen length, by which the marks go, is a lower bound of what the run has seen.
// Here it is told exactly, as far as archive points need it (`highest`), and they are the starts of the runs that would be marked by that.
ghost use Rattle.std.specs.Prelude.{◌≡◌, true, false, map, ◌≤◌, ◌<◌, length, get_or, All};
ghost use Rattle.lists.specs.Lists.{filter, count, upto};
ghost use Rattle.model.specs.Limits.{max_runs};
ghost use Rattle.model.specs.Answers.{answer_or};
ghost use Rattle.model.specs.Lookups.{lookup};
ghost use Rattle.model.specs.Graph.{runs, start};
ghost use Rattle.model.specs.Record.{view};
ghost use Rattle.model.specs.Archive.{seen_by_later, archive_points, archive_points_of};
ghost use Rattle.versions.specs.Parents.{parents_in, runs_in};
ghost use Rattle.versions.specs.Heads.{noted, note_all, first_children, none_below, is_head, highest_by, whole_in, HeadsFit, HeadCounts, SeenLengths};

use crate::rows::ParentRows;
use crate::words::put_fitting;
use graph::held::HeldGraph;
use lists::Kept;
use model::{CausalGraph, EventRunIndex, MAX_RUNS, Refusal, Written};

// A run's first child once `child` is noted as one.
#[tactic(auto, unfolding(crate::specs::Heads::noted))]
fn noted(first: Option<EventRunIndex>, child: EventRunIndex) -> Option<EventRunIndex>
    ensures { result ≡ noted first child.0 }
{
    first.or(Some(child))
}

// Notes `child` as a child of its parents.
#[tactic(auto, using(crate::proofs::HeadTurns::noting))]
fn note_child(firsts: &mut [Option<EventRunIndex>], parents: &[u32], child: EventRunIndex)
    requires { All (λ p. p < length firsts.old) parents.now }
    ensures { firsts.new ≡ note_all firsts.old child.0 parents.now }
{
    for p in parents {
        let at = *p as usize;
        firsts[at] = noted(firsts[at], child);
    }
}

// The first child of each of some runs.
#[tactic(auto, using(crate::proofs::HeadTurns::children))]
fn first_children(parents: ParentRows) -> [Option<EventRunIndex>; MAX_RUNS]
    ensures { result ≡ first_children (parents_in parents.entry) (runs_in parents.entry) }
{
    let mut firsts = [None; MAX_RUNS];
    for q in 0..parents.len() {
        note_child(&mut firsts, parents.of(q), EventRunIndex(q as u32));
    }
    firsts
}

// Whether a run with this first child has no child below `run`.
#[tactic(auto, unfolding(crate::specs::Heads::none_below))]
fn is_head(first: Option<EventRunIndex>, run: EventRunIndex) -> bool
    ensures { result ≡ none_below run.0 first }
{
    first.is_none_or(|child| run <= child)
}

// How many of some runs have no child below `run`.
#[tactic(auto, using(crate::proofs::HeadTurns::count_is), unfolding(crate::specs::Heads::is_head))]
fn count_heads(firsts: &[Option<EventRunIndex>], parents: &[u32], run: EventRunIndex) -> usize
    requires { All (λ p. p < length firsts.now) parents.now }
    ensures { result ≡ count (is_head firsts.now run.0) parents.now }
{
    parents
        .iter()
        .filter(|p| is_head(firsts[**p as usize], run))
        .count()
}

// How many heads lie below each of some runs: the runs below it that have no child below it.
// An array beside the first children, not one of pairs: the counts are made in a pass of their own, which needs all first children.
#[tactic(auto, using(crate::proofs::HeadTurns::heads_on))]
fn head_counts(firsts: &[Option<EventRunIndex>; MAX_RUNS], parents: ParentRows) -> [usize; MAX_RUNS]
    requires { HeadsFit firsts.now (parents_in parents) (runs_in parents) }
    ensures { HeadCounts firsts.now (parents_in parents.entry) (runs_in parents.entry) result }
{
    let mut counts = [0; MAX_RUNS];
    let mut heads = 0;
    for m in 0..parents.len() {
        counts[m] = heads;
        heads = heads + 1 - count_heads(firsts, parents.of(m), EventRunIndex(m as u32));
    }
    counts
}

// The last run that may start at an archive point for all that the parents of `run` tell: the one after the last of
// them, if all heads below it are among them, so that `run` has seen every run below it; else the last parent.
#[tactic(auto, using(crate::proofs::HeadTurns::last_parent), unfolding(crate::specs::Heads::whole_in))]
fn highest(
    firsts: &[Option<EventRunIndex>; MAX_RUNS],
    counts: &[usize; MAX_RUNS],
    parents: &[u32],
    run: EventRunIndex,
) -> EventRunIndex
    requires low { All (λ p. p < run.0) parents.now }
    requires run_there { run.0 < max_runs }
    ensures { (result.0 ≡ highest_by (whole_in firsts.now counts.now) parents.now) × (result.0 ≤ run.0) }
{
    let Some(last) = parents.last() else {
        return EventRunIndex(0);
    };
    let next = EventRunIndex(*last + 1);
    if count_heads(firsts, parents, next) == counts[next.0 as usize] {
        return next;
    }
    EventRunIndex(*last)
}

// How far each of some runs has seen, as far as archive points need it: up to the start of the run that `highest` tells.
#[tactic(auto, using(crate::proofs::Passes::row_each))]
fn seen_lengths(
    firsts: &[Option<EventRunIndex>; MAX_RUNS],
    counts: &[usize; MAX_RUNS],
    events: &[u32],
    parents: ParentRows,
) -> [u32; MAX_RUNS]
    requires { runs_in parents ≤ length events.now }
    ensures { SeenLengths firsts.now counts.now events.now (parents_in parents.entry) (runs_in parents.entry) result }
{
    let mut seen = [0; MAX_RUNS];
    for q in 0..parents.len() {
        let top = highest(firsts, counts, parents.of(q), EventRunIndex(q as u32));
        seen[q] = events[top.0 as usize];
    }
    seen
}

// The starts of some runs.
fn starts_of(starts: &[u32], runs: Kept) -> Kept
    requires { All (λ r. r < length starts.now) runs }
    ensures { result ≡ map (λ r. get_or starts.now r 0) runs }
{
    let mut found = Kept::new();
    for r in runs.as_slice() {
        found.push(starts[*r as usize]);
    }
    found
}

// The runs that start at archive points.
#[tactic(auto, using(crate::proofs::GraphRows::few_runs))]
fn point_runs(g: &HeldGraph) -> Kept
    ensures { result ≡ filter (λ q. seen_by_later (view g.now.graph) (start (view g.now.graph) q)) (upto (runs (view g.now.graph))) }
{
    let parents = ParentRows::of_graph(g);
    let firsts = first_children(parents);
    let counts = head_counts(&firsts, parents);
    let seen = seen_lengths(&firsts, &counts, &g.graph.starts, parents);
    let n = g.graph.run_count;
    graph::marks::marks_of(&g.graph.starts[..n + 1], &seen[..n])
}

// The archive points, rising; or why they are not told.
fn archive_words(g: CausalGraph) -> Result<Kept, Refusal>
    ensures { result ≡ answer_or (lookup g false) (archive_points (view g)) }
{
    let g = HeldGraph::of(g)?;
    let runs = point_runs(&g);
    Ok(starts_of(&g.graph.starts, runs))
}

// The archive points into `list`, rising, as many as fit.
#[tactic(auto, using(crate::proofs::ArchiveWays::is_put))]
pub fn archive_points(g: CausalGraph, list: &mut [u32]) -> Written
    ensures { (result, list.new) ≡ archive_points_of g list.old }
{
    put_fitting(archive_words(g), list)
}
