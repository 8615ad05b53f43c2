// Records of words written into a lent list, one after the other.
ghost use Rattle.std.specs.Prelude.{◌≡◌, ◌<◌, Ok, Err};
ghost use Rattle.graph.specs.Records.{state, after, same_list, blank, put};

use model::{Refusal, Written};

// A lent list, and how many records were written into it.
// Each contract says `same_list`, of a call's begin and end: no invariant can hold it.
#[derive(Drop)]
pub struct Records<'a> {
    list: &'a mut [u32],
    count: usize,
}

impl<'a> Records<'a> {
    // Nothing written yet.
    pub fn over(list: &'a mut [u32]) -> Records<'a>
        ensures over { result.list.ghost_name ≡ list.entry.ghost_name }
        ensures begun { state result ≡ (blank, list.old) }
    {
        Records { list, count: 0 }
    }

    // So many written already.
    pub fn going_on(list: &'a mut [u32], count: usize) -> Records<'a>
        ensures over { result.list.ghost_name ≡ list.entry.ghost_name }
        ensures begun { state result ≡ (record { count = count; outcome = Ok tt }, list.old) }
    {
        Records { list, count }
    }

    // One record after the others, if it fits.
    pub fn put<const N: usize>(&mut self, words: [u32; N]) -> Result<(), Refusal>
        requires { 0 < N }
        ensures same_list { same_list self.new self.old }
        ensures written { after result self.new ≡ put N (state self.old) words.entry }
    {
        if self.list.len() / N <= self.count {
            return Err(Refusal::ListTooShort);
        }
        let at = self.count * N;
        self.list[at..at + N].copy_from_slice(&words);
        self.count += 1;
        Ok(())
    }

    // How many were written, and whether that was all.
    pub fn written(&self, outcome: Result<(), Refusal>) -> Written
        ensures { result ≡ (after outcome self.now).0 }
    {
        Written {
            count: self.count,
            outcome,
        }
    }
}

// Refused before anything is written.
pub fn unwritten(r: Refusal) -> Written
    ensures { result ≡ record { count = 0; outcome = Err r } }
{
    Written {
        count: 0,
        outcome: Err(r),
    }
}
