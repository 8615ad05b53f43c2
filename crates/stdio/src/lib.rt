#![tactic(auto)]

// An input, such as standard input, read so that a failed read is told from the end of the input.
ghost use Rattle.std.specs.Prelude.{length, take, ◌≡◌};
ghost use Rattle.std.specs.Io.KnownBytes.{Consumes, IsAtEnd};
ghost use Rattle.stdio.specs.Reads.{Full};
ghost use Rattle.stdio.specs.declared.reading.State.TheVariants.{Ended};

pub mod reading;

pub use reading::Reading;
use std::io::Read;

// The size of a program's buffer, in bytes: a multiple of four, so that a word never stands half in one filling of it and half in the next.
pub const BUFFER: usize = 65536;

// Reads until the buffer is full, the input ends or a read fails. After a failed read the reading says why. Of an input whose bytes are
// known: those that came are its next ones, and it ended only where no byte is left.
pub fn fill<R: Read>(input: &mut R, buf: &mut [u8]) -> Reading
    ensures full { Full (length buf.new) result }
    ensures bytes { Consumes (R.remaining input.old) (R.remaining input.new) (take result.count buf.new) }
    ensures end { result.state ≡ Ended → IsAtEnd (R.remaining input.new) }
{
    let mut r = Reading::begin();
    // No `for`: the loop counts nothing, and goes on while more may come.
    while 0 < r.left(buf.len()) {
        r = r.read_on(input, buf);
    }
    r
}

#[cfg(test)]
mod tests {
    use super::*;
    use std::io;

    // Gives a byte at each read, so many in all, and then fails or ends.
    #[derive(Drop)]
    struct Pieces {
        left: usize,
        fails: bool,
    }

    impl Read for Pieces {
        fn read(&mut self, buf: &mut [u8]) -> io::Result<usize> {
            if buf.is_empty() {
                return Ok(0);
            }
            if 0 < self.left {
                self.left -= 1;
                buf[0] = b'x';
                return Ok(1);
            }
            if self.fails {
                return Err(io::Error::other("broken"));
            }
            Ok(0)
        }
    }

    // How many of so many bytes come to a buffer of 4; none of an input that fails before it is full.
    fn came(left: usize, fails: bool) -> Option<usize> {
        let mut buf = [0u8; 4];
        let mut input = Pieces { left, fails };
        fill(&mut input, &mut buf).gave().ok()
    }

    #[test]
    fn a_failure_is_no_end(rt: HostRuntime) {
        let cases = [
            (0, false, Some(0)),
            (3, false, Some(3)),
            (4, false, Some(4)),
            (0, true, None),
            (3, true, None),
            (4, true, Some(4)),
            (9, true, Some(4)),
        ];
        for (left, fails, want) in cases {
            assert_eq!(rt; came(left, fails), want, "{left} bytes, {fails}");
        }
    }
}
