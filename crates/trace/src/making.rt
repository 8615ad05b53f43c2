// One call of the script on the current graph, and its line.
use crate::output::Out;
use crate::script::Call;
use crate::writing::Lists;
use crate::{changing, looking, writing};
use model::CausalGraph;
use std::io;
use std::io::Write;

// Makes a call, and puts its line.
pub(crate) fn make(
    g: &mut CausalGraph,
    call: Call,
    lists: &mut Lists,
    out: &mut Out,
) -> io::Result<()> {
    put(g, call, lists, out)?;
    out.write_all(b"\n")
}

// All of the line but its end.
fn put(g: &mut CausalGraph, call: Call, lists: &mut Lists, out: &mut Out) -> io::Result<()> {
    match call {
        Call::New => changing::new(g, out),
        Call::After { events, frontier } => changing::after(g, events, frontier, out),
        Call::Push { len, parents } => changing::push(g, len, parents, out),
        Call::Start(at) => changing::start(g, at, out),
        Call::Take => changing::take(g, out),
        Call::Raw(record) => changing::raw(g, record, out),
        Call::Cut { from, room } => writing::cut(g, from, room.of(&mut lists.steps), out),
        Call::Walk {
            first_run,
            end_run,
            known,
            first,
            rows,
            steps,
        } => writing::walk(
            g,
            first_run,
            end_run,
            known,
            first,
            rows.of(&mut lists.rows),
            steps.of(&mut lists.steps),
            out,
        ),
        Call::Replay { rows, steps } => writing::replay(
            g,
            rows.of(&mut lists.rows),
            steps.of(&mut lists.steps),
            out,
        ),
        Call::Archive(room) => writing::archive(g, room.of(&mut lists.steps), out),
        Call::Concurrent { run, room } => writing::concurrent(
            g,
            run,
            room.of(&mut lists.steps),
            out,
        ),
        Call::Wanted { ranges, room } => writing::wanted(g, ranges, room.of(&mut lists.steps), out),
        Call::Run(run) => looking::run(g, run, out),
        Call::Event(event) => looking::event(g, event, out),
        Call::Extends(parents) => looking::extends(g, parents, out),
        Call::Graph => looking::graph(g, out),
        Call::Reader(list) => looking::reader(list, out),
    }
}
