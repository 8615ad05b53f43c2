// The calls that read off the graph: each puts its line.
use crate::answers;
use crate::output::Out;
use model::{CausalGraph, EventIndex, EventRunIndex, WalkStep};
use std::io;
use std::io::Write;

// A run's start, events and parents.
pub(crate) fn run(g: &CausalGraph, run: EventRunIndex, out: &mut Out) -> io::Result<()> {
    out.write_all(b"run")?;
    let start = graph::lookups::start(*g, run);
    answers::put(start.map(|e| [e.0]), out)?;
    out.write_all(b" :")?;
    let events = graph::lookups::events(*g, run);
    answers::put(events.map(|(first, end)| [first.0, end.0]), out)?;
    out.write_all(b" :")?;
    match graph::lookups::parents(*g, run) {
        Ok(parents) => {
            answers::put(Ok([]), out)?;
            out.words(up_to(&parents.runs, parents.count))
        }
        Err(r) => out.number(u64::from(u32::from(r))),
    }
}

// The run that holds an event.
pub(crate) fn event(g: &CausalGraph, event: EventIndex, out: &mut Out) -> io::Result<()> {
    out.write_all(b"event")?;
    let side = graph::lookups::containing(*g, event);
    answers::put(side.map(answers::side), out)
}

// Whether a push on these parents extends the last run.
pub(crate) fn extends(g: &CausalGraph, parents: &[u32], out: &mut Out) -> io::Result<()> {
    out.write_all(b"extends")?;
    let does = graph::lookups::extends_last_event(*g, parents);
    answers::put(does.map(|b| [u32::from(b)]), out)
}

// The whole graph, if it is not broken: its length, the first event held, whether there are no runs, and its lists.
pub(crate) fn graph(g: &CausalGraph, out: &mut Out) -> io::Result<()> {
    out.write_all(b"graph")?;
    match graph::lookups::len(*g) {
        Ok(len) => {
            let first = graph::lookups::first_held_event(*g);
            let empty = graph::lookups::is_empty(*g);
            out.words(&[
                0,
                len.0,
                first.map_or(0, |e| e.0),
                empty.map_or(0, u32::from),
            ])?;
            lists(g, out)
        }
        Err(r) => out.number(u64::from(u32::from(r))),
    }
}

// The first words of a list, all of them if there are not so many.
fn up_to(list: &[u32], n: usize) -> &[u32] {
    list.get(..n).unwrap_or(list)
}

// The frontier, what is kept of the runs, and their parents.
fn lists(g: &CausalGraph, out: &mut Out) -> io::Result<()> {
    let starts = g.run_count.saturating_add(1);
    match graph::lookups::frontier(*g) {
        Ok(frontier) => out.list(up_to(&frontier.events, frontier.count))?,
        Err(_) => out.list(&[])?,
    }
    out.list(up_to(&g.starts, starts))?;
    out.list(up_to(&g.seen_prefix_len, g.run_count))?;
    out.list(up_to(&g.critical_versions, g.mark_count))?;
    out.list(&[g.changed_from.0])?;
    parents(up_to(&g.parent_starts, starts), &g.parents, out)
}

// The parents of each run, a stroke between two runs.
fn parents(starts: &[u32], entries: &[u32], out: &mut Out) -> io::Result<()> {
    out.write_all(b" :")?;
    for (run, ends) in starts.array_windows::<2>().enumerate() {
        if run > 0 {
            out.write_all(b" /")?;
        }
        let [from, to] = *ends;
        out.words(entries.get(from as usize..to as usize).unwrap_or(&[]))?;
    }
    Ok(())
}

// The step reader over a list of the script: each step that it hands out, and then the end or the refusal.
pub(crate) fn reader(list: &[u32], out: &mut Out) -> io::Result<()> {
    out.write_all(b"reader")?;
    let mut at = 0;
    for _ in 0..list.len() / 3 + 1 {
        let read = reader::step_at(list, at);
        at = read.at;
        match read.step {
            Ok(Some(step)) => put_step(step, out)?,
            Ok(None) => return out.write_all(b" end"),
            Err(r) => {
                out.write_all(b" refused")?;
                return out.number(u64::from(u32::from(r)));
            }
        }
    }
    Ok(())
}

// A step's kind by its number, its first run, and the end of its runs. No `From`: both types are of other crates.
fn step_words(step: WalkStep) -> [u64; 3] {
    let (kind, first, end) = match step {
        WalkStep::Retreat(a, b) => (0, a.0, u64::from(b.0)),
        WalkStep::Advance(a, b) => (1, a.0, u64::from(b.0)),
        WalkStep::Apply(r) => (2, r.0, u64::from(r.0) + 1),
        WalkStep::Open(a, b) => (3, a.0, u64::from(b.0)),
    };
    [kind, u64::from(first), end]
}

// Puts a step.
fn put_step(step: WalkStep, out: &mut Out) -> io::Result<()> {
    for word in step_words(step) {
        out.number(word)?;
    }
    Ok(())
}
