// How far an input was read. A reading's fields are private, and `read_on` alone moves it on: no caller can take a failed read for
// the end of the input.
ghost use Rattle.std.specs.Prelude.{ℕ, ◌+◌, ◌<◌, ◌≤◌, List, Option, IfOk, length, take, ◌≡◌};
ghost use Rattle.std.specs.Io.KnownBytes.{Consumes, IsAtEnd};
ghost use Rattle.stdio.specs.Reads.{after_read, left_of, filled_of, On};

use std::io;
use std::io::Read;

// How a reading stands: more may come, the input ended, or a read failed, and why.
#[derive(Clone, Copy)]
enum State {
    Open,
    Ended,
    Failed(io::Error),
}

// So many bytes came, and how the reading stands then.
#[derive(Clone, Copy)]
pub struct Reading {
    count: usize,
    state: State,
}

impl Reading {
    // Nothing is read yet.
    pub(crate) fn begin() -> Reading
        ensures { result ≡ record { count = 0; state = State.Open } }
    {
        Reading {
            count: 0,
            state: State::Open,
        }
    }

    // How many bytes of a buffer of `len` may still come: none after the end or a failure.
    #[tactic(auto, unfolding(crate::specs::Reads::left_of))]
    pub(crate) fn left(self, len: usize) -> usize
        ensures { result ≡ left_of self len }
    {
        match self.state {
            State::Open => len.saturating_sub(self.count),
            State::Ended | State::Failed(_) => 0,
        }
    }

    // What a reading gave: so many bytes, all of the buffer or all that the input had, or why a read failed.
    #[tactic(auto, unfolding(crate::specs::Reads::filled_of))]
    pub fn gave(self) -> io::Result<usize>
        ensures { result ≡ filled_of self }
    {
        match self.state {
            State::Open | State::Ended => Ok(self.count),
            State::Failed(e) => Err(e),
        }
    }

    // The reading after a read's answer: no bytes are the end of the input. A read that a signal interrupts counts as failed: a program
    // with no signal handler meets none.
    #[tactic(auto, unfolding(crate::specs::Reads::after_read))]
    fn after(self, got: io::Result<usize>) -> Reading
        requires { IfOk got (λ n. self.count + n ≤ usize.MAX) }
        ensures { result ≡ after_read self got }
    {
        match got {
            Ok(0) => Reading {
                state: State::Ended,
                ..self
            },
            Ok(n) => Reading {
                count: self.count + n,
                ..self
            },
            Err(e) => Reading {
                state: State::Failed(e),
                ..self
            },
        }
    }

    // One read, into the buffer from where it stands on. If what came before are the bytes of an input from its start on, so is what then came.
    pub(crate) fn read_on<R: Read>(self, input: &mut R, buf: &mut [u8]) -> Reading
        requires count_in_bounds { self.count ≤ length buf.old }
        requires nonzero { 0 < left_of self (length buf.old) }
        ensures on { On self buf.old buf.new result }
        ensures bytes { (start : Option (List ℕ)) → Consumes start (R.remaining input.old) (take self.count buf.old)
            → Consumes start (R.remaining input.new) (take result.count buf.new) }
        ensures end { result.state ≡ State.Ended → IsAtEnd (R.remaining input.new) }
    {
        let got = input.read(&mut buf[self.count..]);
        self.after(got)
    }
}
