#![tactic(auto)]

// For differential/speed.sh to time: builds a graph by the public calls and then does one thing as often as it is told.
// Standard input, in little-endian words: how often; what (0 nothing, 1 full replay, 2 the pushes again, from `new`, 3 archive
// points, 4 wanted parents); how many pushes; for each its length, its parent count and its parents; for 4 then a 0, the count of the
// ranges' words, and these. At most 16,384 words. A failed read or write ends it with an error.
mod script;

use model::{CausalGraph, Walked, Written};
use script::{Script, Task, WORDS};
use std::{fmt, io};
use stdio::BUFFER;
use walk::{MAX_ROWS, MAX_STEPS};

// The graph that the pushes give, the words that follow them, and whether the last push was refused.
#[derive(Clone, Copy)]
struct Built<'a> {
    graph: CausalGraph,
    rest: &'a [u32],
    refused: bool,
}

// What is printed: how many steps, pushes, points or parents, the events moved, and 1 if the last call was refused.
#[derive(Clone, Copy, Default)]
struct Told {
    count: u64,
    moved: u64,
    refused: bool,
}

impl fmt::Display for Told {
    fn fmt<W: fmt::Write>(&self, f: &mut fmt::Formatter<W>) -> fmt::Result {
        let count = self.count;
        let moved = self.moved;
        let refused = u8::from(self.refused);
        write!(f, "{count} {moved} {refused}")
    }
}

// What is printed of a replay.
impl From<Walked> for Told {
    fn from(w: Walked) -> Told {
        Told {
            count: w.count,
            moved: w.moved,
            refused: w.outcome.is_err(),
        }
    }
}

// What is printed of a written list.
impl From<Written> for Told {
    fn from(w: Written) -> Told {
        Told {
            count: w.count as u64,
            moved: 0,
            refused: w.outcome.is_err(),
        }
    }
}

// Makes the pushes, from `new`, as far as their words are there.
fn build<'a>(script: &Script<'a>) -> Built<'a> {
    let mut built = Built {
        graph: graph::fresh::new(),
        rest: script.rest,
        refused: false,
    };
    for _ in 0..script.pushes {
        let Some((len, parents, rest)) = script::counted(built.rest) else {
            break;
        };
        let pushed = graph::pushing::push(built.graph, parents, len);
        built = Built {
            graph: pushed.graph,
            rest,
            refused: pushed.answer.is_err(),
        };
    }
    built
}

// What is printed of the pushes.
fn pushes(script: &Script) -> Told {
    let built = build(script);
    Told {
        count: u64::from(script.pushes),
        moved: 0,
        refused: built.refused,
    }
}

// Does one thing so many times; what is printed of the last.
fn repeat<F: FnMut() -> Told>(times: u32, mut once: F) -> Told
    requires { F.IsAlwaysCallable once }
{
    let mut told = Told::default();
    for _ in 0..times {
        told = once();
    }
    told
}

// Builds the graph, and does what the script says.
fn run(script: &Script, rows: &mut [u32; MAX_ROWS], steps: &mut [u32; MAX_STEPS]) -> Told {
    let times = script.times;
    let built = build(script);
    let g = built.graph;
    match script.task {
        Task::Nothing => Told::default(),
        Task::Replay => repeat(
            times,
            || Told::from(walk::replaying::replay(g, rows, steps)),
        ),
        Task::Pushes => repeat(times, || pushes(script)),
        Task::ArchivePoints => repeat(times, || {
            Told::from(versions::archive::archive_points(g, steps))
        }),
        Task::WantedParents => match script::counted(built.rest) {
            Some((_, ranges, _)) => repeat(times, || {
                Told::from(versions::wanted::wanted_parents(g, ranges, steps))
            }),
            None => Told::default(),
        },
    }
}

fn main(rt: HostRuntime) -> io::Result<()> {
    let mut bytes = [0; BUFFER];
    let mut words = [0; WORDS];
    let mut rows = [0; MAX_ROWS];
    let mut steps = [0; MAX_STEPS];
    stdio::fill(&mut rt.stdin(), &mut bytes).gave()?;
    for (word, b) in words.iter_mut().zip(bytes.chunks_exact(4)) {
        *word = u32::from_le_bytes([b[0], b[1], b[2], b[3]]);
    }
    let told = run(&Script::new(&words), &mut rows, &mut steps);
    println!(rt; "{told}")
}
