#![tactic(auto)]

// Reads a script of calls from standard input, makes each on one current graph, and writes a line for each. A failed read or write
// ends it, and is told by a line on standard error and by the status.
mod answers;
mod changing;
mod input;
mod looking;
mod making;
mod output;
mod script;
mod writing;

use input::Source;
use model::CausalGraph;
use output::Out;
use script::Words;
use std::io;
use std::io::Write;
use std::process::ExitCode;
use walk::{MAX_ROWS, MAX_STEPS};
use writing::{BLANK, Lists};

// Why no further call is made.
#[derive(Clone, Copy)]
pub enum Stop {
    // The script ended after a whole call.
    Ended,
    // The script is cut off, or holds what the program does not take.
    Bad,
    // A read or a write failed, and why.
    Read(io::Error),
    Write(io::Error),
}

// Reads the next call, makes it, and puts its line.
fn turn(
    source: &mut Source,
    words: &mut Words,
    g: &mut CausalGraph,
    lists: &mut Lists,
    out: &mut Out,
) -> Result<(), Stop> {
    let call = script::read(source, words)?;
    making::make(g, call, lists, out).map_err(Stop::Write)
}

// Makes the calls until the script ends. A proved loop has to end, and nothing says that a script does: it has more turns than any
// run uses up.
fn run(source: &mut Source, lists: &mut Lists, out: &mut Out) -> Result<(), Stop> {
    let mut g = graph::fresh::new();
    let mut words = Words {
        list: [0; script::MAX_LIST],
        record: g,
    };
    for _ in 0..u64::MAX {
        turn(source, &mut words, &mut g, lists, out)?;
    }
    Ok(())
}

// Writes what is not written yet, after the last line of a bad script.
fn finish(ended: Result<(), Stop>, out: &mut Out) -> io::Result<()> {
    match ended {
        Err(Stop::Bad) => {
            out.write_all(b"bad script\n")?;
            out.flush()
        }
        // Nothing more is written after a failed write.
        Err(Stop::Write(why)) => Err(why),
        Ok(()) | Err(Stop::Ended | Stop::Read(_)) => out.flush(),
    }
}

// Tells which call failed, and why.
fn tell(rt: &impl Eprint, call: &str, why: io::Error) -> ExitCode {
    let _ = eprintln!(rt; "trace: {call}: {why}");
    ExitCode::FAILURE
}

fn main(rt: HostRuntime) -> ExitCode {
    let mut source = Source::new(rt.stdin());
    let mut lists = Lists {
        rows: [BLANK; MAX_ROWS],
        steps: [BLANK; MAX_STEPS],
    };
    let mut out = Out::new(rt.stdout());
    let ended = run(&mut source, &mut lists, &mut out);
    // What is left is written before anything is told of a failed read: the lines come first.
    let finished = finish(ended, &mut out);
    let mut status = ExitCode::SUCCESS;
    if let Err(Stop::Read(why)) = ended {
        status = tell(&rt, "read", why);
    }
    if let Err(why) = finished {
        status = tell(&rt, "write", why);
    }
    status
}
