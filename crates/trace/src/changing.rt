// The calls that give a graph: each puts its line.
use crate::answers;
use crate::output::Out;
use calls::Form;
use model::{CausalGraph, EventIndex};
use std::io;
use std::io::Write;

// A new graph.
pub(crate) fn new(g: &mut CausalGraph, out: &mut Out) -> io::Result<()> {
    *g = graph::fresh::new();
    out.write_all(b"new")
}

// A graph after so many events, with a frontier.
pub(crate) fn after(
    g: &mut CausalGraph,
    events: EventIndex,
    frontier: &[u32],
    out: &mut Out,
) -> io::Result<()> {
    let made = graph::fresh::after(events, frontier);
    *g = made.graph;
    out.write_all(b"after")?;
    answers::put(made.answer.map(|()| []), out)
}

// By value, or lent where a number is odd: so both forms are run.
fn form(number: u32) -> Form {
    if number % 2 == 1 {
        Form::Lent
    } else {
        Form::ByValue
    }
}

// A push, in either form.
pub(crate) fn push(
    g: &mut CausalGraph,
    len: u32,
    parents: &[u32],
    out: &mut Out,
) -> io::Result<()> {
    let pushed = form(len).push(*g, parents, len);
    *g = pushed.graph;
    out.write_all(b"push")?;
    answers::put(pushed.answer.map(|(first, end)| [first.0, end.0]), out)
}

// A run start, in either form.
pub(crate) fn start(g: &mut CausalGraph, at: EventIndex, out: &mut Out) -> io::Result<()> {
    let started = form(at.0).start_run_at(*g, at);
    *g = started.graph;
    out.write_all(b"start")?;
    answers::put(started.answer.map(|b| [u32::from(b)]), out)
}

// A take of the first changed run, lent.
pub(crate) fn take(g: &mut CausalGraph, out: &mut Out) -> io::Result<()> {
    let taken = Form::Lent.take_changed_from(*g);
    *g = taken.graph;
    out.write_all(b"take")?;
    answers::put(taken.answer.map(|r| [r.0]), out)
}

// Takes a record of the script as it is.
pub(crate) fn raw(g: &mut CausalGraph, record: &CausalGraph, out: &mut Out) -> io::Result<()> {
    *g = *record;
    out.write_all(b"raw")
}
