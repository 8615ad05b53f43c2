#![tactic(auto)]

// Reads a book from standard input and prints its replay, or the refusal that it met: 01, "The book and its program". Where a read
// fails, nothing is printed; that, or a failed write, is told by a line on standard error and by the status.
ghost use Rattle.std.specs.Prelude.{length};
ghost use Rattle.stdio.specs.Reads.{Came};

use book::replaying::MAX_TEXT;
use model::MAX_BOOK;
use std::process::ExitCode;
use std::{fmt, io};
use stdio::Reading;

// Which call failed, and why.
#[derive(Clone, Copy)]
enum Failure {
    Read(io::Error),
    Write(io::Error),
}

impl fmt::Display for Failure {
    fn fmt<W: fmt::Write>(&self, f: &mut fmt::Formatter<W>) -> fmt::Result {
        match self {
            Failure::Read(why) => write!(f, "read: {why}"),
            Failure::Write(why) => write!(f, "write: {why}"),
        }
    }
}

// Prints the replay of a book, of as many bytes as came, with no read that failed. Demand 3 is the contract of what is printed.
fn print(rt: &impl Print, reading: Reading, bytes: &[u8]) -> io::Result<()>
    requires { Came reading (length bytes.now) }
{
    // As many bytes as the lines of any book.
    let mut text = [0; MAX_TEXT];
    let used = demand::print_book(bytes, &mut text).used;
    rt.write_all(&text[..used])
}

// Reads a book and prints its replay.
fn replay(rt: &HostRuntime) -> Result<(), Failure> {
    // One byte more than a book may have: a longer one is refused by its length alone, and the rest of it is not read.
    let mut bytes = [0; MAX_BOOK + 1];
    let reading = stdio::fill(&mut rt.stdin(), &mut bytes);
    let n = reading.gave().map_err(Failure::Read)?;
    print(rt, reading, &bytes[..n]).map_err(Failure::Write)
}

fn main(rt: HostRuntime) -> ExitCode {
    match replay(&rt) {
        Ok(()) => ExitCode::SUCCESS,
        Err(failure) => {
            let _ = eprintln!(rt; "replay: {failure}");
            ExitCode::FAILURE
        }
    }
}
