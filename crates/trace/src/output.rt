// Standard output, by way of a buffer.
ghost use Rattle.std.specs.Prelude.{◌≡◌, ◌≤◌, OnOk};
ghost use Rattle.stdio.specs.declared.TheConstants.{BUFFER};

use itoa::Buffer;
use std::io;
use std::io::{Stdout, Write};
use stdio::BUFFER;

// Standard output and the buffer, whose first `used` bytes are still to be written.
#[derive(Drop)]
pub struct Out {
    stdout: Stdout,
    bytes: [u8; BUFFER],
    used: usize,
    ghost within: { used ≤ BUFFER },
}

impl Write for Out {
    fn write(&mut self, text: &[u8]) -> io::Result<usize> {
        self.write_all(text)?;
        Ok(text.len())
    }

    // Puts bytes into the buffer. Where it is full, it is written first.
    fn write_all(&mut self, text: &[u8]) -> io::Result<()> {
        let end = self.used + text.len();
        if end <= BUFFER {
            self.bytes[self.used..end].copy_from_slice(text);
            self.used = end;
            return Ok(());
        }
        for byte in text {
            if self.used == BUFFER {
                self.empty()?;
            }
            self.bytes[self.used] = *byte;
            self.used += 1;
        }
        Ok(())
    }

    fn flush(&mut self) -> io::Result<()> {
        self.empty()
    }
}

impl Out {
    // Nothing is written yet.
    pub(crate) fn new(stdout: Stdout) -> Out {
        Out {
            stdout,
            bytes: [0; BUFFER],
            used: 0,
        }
    }

    // Writes what is still to be written.
    fn empty(&mut self) -> io::Result<()>
        ensures { OnOk result (self.new.used ≡ 0) }
    {
        self.stdout.write_all(&self.bytes[..self.used])?;
        self.used = 0;
        Ok(())
    }

    // Puts a space and a number in decimal, if they fit in the buffer; whether they did. A `bool`, since an `io::Result` has 96 bytes: with one
    // for each number a list took a seventh more time.
    fn put_number(&mut self, n: u64) -> bool {
        let mut buffer = Buffer::new();
        let digits = buffer.format(n).as_bytes();
        let at = self.used;
        let end = at + 1 + digits.len();
        if BUFFER < end {
            return false;
        }
        self.bytes[at] = b' ';
        self.bytes[at + 1..end].copy_from_slice(digits);
        self.used = end;
        true
    }

    // A space and a number in decimal.
    pub(crate) fn number(&mut self, n: u64) -> io::Result<()> {
        if self.put_number(n) {
            return Ok(());
        }
        self.write_all(b" ")?;
        self.write_all(Buffer::new().format(n).as_bytes())
    }

    // A list's words, a space before each.
    pub(crate) fn words(&mut self, list: &[u32]) -> io::Result<()> {
        for word in list {
            let n = u64::from(*word);
            if !self.put_number(n) {
                self.number(n)?;
            }
        }
        Ok(())
    }

    // A colon and a list's words.
    pub(crate) fn list(&mut self, list: &[u32]) -> io::Result<()> {
        self.write_all(b" :")?;
        self.words(list)
    }
}
