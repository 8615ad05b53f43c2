// The calls that write into lent lists, all of whose words are BLANK before: each puts its line. The line has the list up to its last
// word that is no longer BLANK; then those words are made BLANK again.
ghost use Rattle.std.specs.Prelude.{◌≤◌};

use crate::output::Out;
use crate::{Stop, answers};
use model::{CausalGraph, EventRunIndex, Walked, Written};
use std::io;
use std::io::Write;
use walk::{MAX_ROWS, MAX_STEPS};

// What stands where nothing is written.
pub const BLANK: u32 = u32::MAX;

// The lists that the program lends to calls.
#[derive(Drop)]
pub struct Lists {
    pub rows: [u32; MAX_ROWS],
    pub steps: [u32; MAX_STEPS],
}

// How many words of a list of `MOST` a call is lent.
#[derive(Clone, Copy)]
pub struct Room<const MOST: usize> {
    words: usize,
    ghost within: { words ≤ MOST },
}

// A room of more words than the list has is a bad script.
impl<const MOST: usize> TryFrom<u32> for Room<MOST> {
    type Error = Stop;

    fn try_from(words: u32) -> Result<Self, Stop> {
        let words = words as usize;
        if words <= MOST {
            Ok(Room { words })
        } else {
            Err(Stop::Bad)
        }
    }
}

impl<const MOST: usize> Room<MOST> {
    // The part of the list that the call is lent.
    pub(crate) fn of(self, list: &mut [u32; MOST]) -> &mut [u32] {
        &mut list[..self.words]
    }
}

// What a call wrote into a list, which is made BLANK again.
fn list(list: &mut [u32], out: &mut Out) -> io::Result<()> {
    let n = list
        .iter()
        .rposition(|word| *word != BLANK)
        .map_or(0, |last| last + 1);
    let part = &mut list[..n];
    out.list(part)?;
    part.fill(BLANK);
    Ok(())
}

// A written list's line: the count stands after the refusal, refused or not.
fn written(name: &str, w: Written, words: &mut [u32], out: &mut Out) -> io::Result<()> {
    out.write_all(name.as_bytes())?;
    answers::put(w.outcome.map(|()| []), out)?;
    out.number(w.count as u64)?;
    list(words, out)
}

// A walk's or a replay's: so do its two counts.
fn walked(
    name: &str,
    w: Walked,
    rows: &mut [u32],
    steps: &mut [u32],
    out: &mut Out,
) -> io::Result<()> {
    out.write_all(name.as_bytes())?;
    answers::put(w.outcome.map(|()| []), out)?;
    out.number(w.count)?;
    out.number(w.moved)?;
    list(rows, out)?;
    list(steps, out)
}

// The cut from a run on.
pub(crate) fn cut(
    g: &CausalGraph,
    from: EventRunIndex,
    words: &mut [u32],
    out: &mut Out,
) -> io::Result<()> {
    let w = graph::cut::split_at_critical_versions_from(*g, from, words);
    written("cut", w, words, out)
}

// The archive points.
pub(crate) fn archive(g: &CausalGraph, words: &mut [u32], out: &mut Out) -> io::Result<()> {
    let w = versions::archive::archive_points(*g, words);
    written("archive", w, words, out)
}

// The concurrency list of a run.
pub(crate) fn concurrent(
    g: &CausalGraph,
    run: EventRunIndex,
    words: &mut [u32],
    out: &mut Out,
) -> io::Result<()> {
    let w = versions::concurrent::concurrent_runs(*g, run, words);
    written("concurrent", w, words, out)
}

// The parents that give just the events of the ranges.
pub(crate) fn wanted(
    g: &CausalGraph,
    ranges: &[u32],
    words: &mut [u32],
    out: &mut Out,
) -> io::Result<()> {
    let w = versions::wanted::wanted_parents(*g, ranges, words);
    written("wanted", w, words, out)
}

// A walk over a range of runs.
pub(crate) fn walk(
    g: &CausalGraph,
    first_run: EventRunIndex,
    end_run: EventRunIndex,
    known: u32,
    first: u32,
    rows: &mut [u32],
    steps: &mut [u32],
    out: &mut Out,
) -> io::Result<()> {
    let w = walk::walking::walk(*g, first_run, end_run, known, first, rows, steps);
    walked("walk", w, rows, steps, out)
}

// The full replay.
pub(crate) fn replay(
    g: &CausalGraph,
    rows: &mut [u32],
    steps: &mut [u32],
    out: &mut Out,
) -> io::Result<()> {
    let w = walk::replaying::replay(*g, rows, steps);
    walked("replay", w, rows, steps, out)
}
