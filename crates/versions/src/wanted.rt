// The parents that give a wanted version, into a lent list, in linear time. A version's events are a run's first events, up to an end, or
// none of the run; and where a run has some of them, its parent runs have all of theirs. So the marked events are told run by run.
ghost use Rattle.std.specs.Prelude.{◌≡◌, true, not, cond, ◌&&◌, ◌||◌, ◌+◌, ◌-◌, ◌<◌, ◌≤◌, length, All, Ok, Err, Some, None, is_some};
ghost use Rattle.lists.specs.Lists.{all, upto};
ghost use Rattle.model.specs.Limits.{max_runs};
ghost use Rattle.model.specs.Answers.{answer_or};
ghost use Rattle.model.specs.EventGraph.{closed};
ghost use Rattle.model.specs.Graph.{all_held};
ghost use Rattle.model.specs.Record.{view};
ghost use Rattle.model.specs.HeldEvents.{held_events};
ghost use Rattle.model.specs.Wanted.{events_in, wanted_parents, wanted_parents_of};
ghost use Rattle.versions.specs.Parents.{parents_in, runs_in};
ghost use Rattle.versions.specs.Flags.{flag_all};
ghost use Rattle.versions.specs.Ranges.{end_number, ends_at, flag_marked, marked_whole, tops};
ghost use Rattle.versions.specs.Words.{wanted_tests};

use crate::concurrent::flag_all;
use crate::ranges::EventRanges;
use crate::rows::ParentRows;
use crate::words::put_all;
use graph::held::HeldGraph;
use lists::Kept;
use model::{CausalGraph, EventIndex, EventRunIndex, MAX_RUNS, Refusal, Written};

// Flags some runs, if there is an end.
fn flag_if(end: Option<EventIndex>, flags: &mut [bool], runs: &[u32])
    requires { All (λ p. p < length flags.old) runs.now }
    ensures { flags.new ≡ cond (is_some end) (flag_all flags.old runs.now) flags.old }
{
    if end.is_some() {
        flag_all(flags, runs);
    }
}

// A flag for each parent of a run of which something is marked.
// An array beside the ends, not one of pairs: a run is flagged by its children's ends, so the flags are made when all ends are.
#[tactic(auto, using(crate::proofs::Passes::row_each))]
fn flag_marked(ends: &[Option<EventIndex>], parents: ParentRows) -> [bool; MAX_RUNS]
    requires { runs_in parents ≡ length ends.now }
    ensures { result ≡ flag_marked (parents_in parents.entry) ends.now (length ends.now) }
{
    let mut flags = [false; MAX_RUNS];
    for (r, end) in ends.iter().enumerate() {
        flag_if(*end, &mut flags, parents.of(r));
    }
    flags
}

// Whether a run is not flagged, or what is marked of it ends where the next run starts.
#[tactic(auto, unfolding(crate::specs::Ranges::ends_at))]
fn is_whole(flag: bool, end: Option<EventIndex>, next: EventIndex) -> bool
    ensures { result ≡ not flag || ends_at end next.0 }
{
    !flag || end == Some(next)
}

// Whether all of each flagged run is marked.
#[tactic(auto, using(crate::proofs::RangeTurns::testing), unfolding(crate::specs::Ranges::marked_whole))]
fn all_whole(flags: &[bool], ends: &[Option<EventIndex>], starts: &[u32]) -> bool
    requires flags_reach { length flags.now ≡ length ends.now }
    requires starts_reach { length starts.now ≡ length ends.now + 1 }
    ensures { result ≡ all (marked_whole flags.now ends.now starts.now) (upto (length ends.now)) }
{
    for (r, end) in ends.iter().enumerate() {
        if !is_whole(flags[r], *end, EventIndex(starts[r + 1])) {
            return false;
        }
    }
    true
}

// The last marked event of a run that is not flagged.
#[tactic(auto, unfolding(crate::specs::Ranges::end_number))]
fn top_event(flag: bool, end: Option<EventIndex>) -> Option<EventIndex>
    ensures { result ≡ cond (is_some end && not flag) (Some (record { 0 = end_number end - 1 })) None }
{
    if flag {
        return None;
    }
    end.map(|e| EventIndex(e.0.saturating_sub(1)))
}

// The last marked events of the runs of which something is marked and that are not flagged. A filter of its own, as `lists::keep_all` is: it
// changes what it keeps.
// Their number is bounded by a clause: no heap is used, and that a `Kept` of fixed memory has room for all is no part of a slice's type.
#[tactic(auto, using(crate::proofs::RangeTurns::topping), unfolding(crate::specs::Ranges::is_top))]
fn top_events(flags: &[bool], ends: &[Option<EventIndex>]) -> Kept
    requires few { length ends.now ≤ max_runs }
    requires flags_reach { length flags.now ≡ length ends.now }
    ensures { result ≡ tops flags.now ends.now (length ends.now) }
{
    let mut tops = Kept::new();
    for (r, end) in ends.iter().enumerate() {
        if let Some(last) = top_event(flags[r], *end) {
            tops.push(last.0);
        }
    }
    tops
}

// The parents that give the events of ranges, all of them held; refused where no parents do.
#[tactic(auto, using(crate::proofs::GraphRows::few_runs))]
fn closed_parents(g: &HeldGraph, ranges: EventRanges) -> Result<Kept, Refusal>
    requires { all_held (view g.now.graph) (events_in ranges.words.now) ≡ true }
    ensures { result ≡ cond (closed (held_events (view g.now.graph)) (events_in ranges.entry.words.now))
        (Ok (wanted_parents (view g.now.graph) ranges.entry.words.now)) (Err Refusal.NoSuchParents) }
{
    let n = g.graph.run_count;
    let starts = &g.graph.starts[..n + 1];
    if !ranges.all_clear(starts) {
        return Err(Refusal::NoSuchParents);
    }
    let ends = ranges.marked_ends(starts);
    let flags = flag_marked(&ends[..n], ParentRows::of_graph(g));
    if !all_whole(&flags[..n], &ends[..n], starts) {
        return Err(Refusal::NoSuchParents);
    }
    Ok(top_events(&flags[..n], &ends[..n]))
}

// The parents that give the events of `ranges` (first and end, exclusive, of each in turn), rising; or why they are not told.
fn wanted_words(g: CausalGraph, ranges: &[u32]) -> Result<Kept, Refusal>
    ensures { result ≡ answer_or (wanted_tests g ranges.now) (wanted_parents (view g) ranges.now) }
{
    let g = HeldGraph::of(g)?;
    let ranges = EventRanges::of_words(ranges).ok_or(Refusal::NotRising)?;
    if !ranges.are_within(EventIndex(g.graph.starts[0]), g.len()) {
        return Err(Refusal::UnknownEvent);
    }
    closed_parents(&g, ranges)
}

// The parents to push so that the new event has seen the events of `ranges`, and no others, into `list`, rising; none where they do not fit.
#[tactic(auto, using(crate::proofs::WantedWays::is_put))]
pub fn wanted_parents(g: CausalGraph, ranges: &[u32], list: &mut [u32]) -> Written
    ensures { (result, list.new) ≡ wanted_parents_of g ranges.now list.old }
{
    put_all(wanted_words(g, ranges), list)
}
