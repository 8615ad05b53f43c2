// The script's words, little-endian, from standard input by way of a buffer, in which each word stands whole.
ghost use Rattle.std.specs.Prelude.{◌≤◌};
ghost use Rattle.stdio.specs.declared.TheConstants.{BUFFER};

use crate::Stop;
use std::io::Stdin;
use stdio::BUFFER;

// Standard input and the buffer, whose bytes from `at` to `end` are still to be read.
#[derive(Drop)]
pub struct Source {
    stdin: Stdin,
    bytes: [u8; BUFFER],
    at: usize,
    end: usize,
    ghost rising: { at ≤ end },
    ghost within: { end ≤ BUFFER },
}

impl Source {
    // Nothing is read yet.
    pub(crate) fn new(stdin: Stdin) -> Source {
        Source {
            stdin,
            bytes: [0; BUFFER],
            at: 0,
            end: 0,
        }
    }

    // Fills the buffer again if nothing in it is left to read.
    fn fill(&mut self) -> Result<(), Stop> {
        if self.at < self.end {
            return Ok(());
        }
        let reading = stdio::fill(&mut self.stdin, &mut self.bytes);
        let end = reading.gave().map_err(Stop::Read)?;
        self.at = 0;
        self.end = end;
        Ok(())
    }

    // The next word; `Bad` if the input has no whole word left.
    pub(crate) fn word(&mut self) -> Result<u32, Stop> {
        self.fill()?;
        let left = &self.bytes[self.at..self.end];
        match left.first_chunk() {
            Some(bytes) => {
                let word = u32::from_le_bytes(*bytes);
                self.at += 4;
                Ok(word)
            }
            None => Err(Stop::Bad),
        }
    }

    // The first word of a call; `Ended` if the input has not a byte more.
    pub(crate) fn first_word(&mut self) -> Result<u32, Stop> {
        self.fill()?;
        if self.at == self.end {
            return Err(Stop::Ended);
        }
        self.word()
    }

    // Fills a list with the next words.
    pub(crate) fn read(&mut self, list: &mut [u32]) -> Result<(), Stop> {
        for word in list.iter_mut() {
            *word = self.word()?;
        }
        Ok(())
    }

    // The next words, so many as the caller's array has.
    pub(crate) fn words<const N: usize>(&mut self) -> Result<[u32; N], Stop> {
        let mut all = [0; N];
        self.read(&mut all)?;
        Ok(all)
    }

    // A word that counts words, and these, at the start of a list; `Bad` if they are more than the list has.
    pub(crate) fn counted<'a>(&mut self, list: &'a mut [u32]) -> Result<&'a [u32], Stop> {
        let n = self.word()? as usize;
        match list.get_mut(..n) {
            Some(part) => {
                self.read(part)?;
                Ok(part)
            }
            None => Err(Stop::Bad),
        }
    }
}
