// Steps written one after another into a lent list, as long as they fit.
ghost use Rattle.std.specs.Prelude.{◌≡◌, ◌+◌, ◌*◌, ◌-◌, ◌<◌, ◌≤◌, ◌^◌, get_or};

use model::{Refusal, Walked};

// The kinds of steps, and any other by its word. No model::WalkStep: that has its runs, and here a kind is passed on before the runs of its
// steps are known.
#[derive(Clone, Copy)]
pub enum Kind {
    Retreat,
    Advance,
    Apply,
    Open,
    Other(u32),
}

impl Kind {
    ghost use Rattle.moves.specs.Emit.{kind_word};

    // The word that stands for it in a list.
    pub fn word(self) -> u32
        ensures { result ≡ kind_word self }
    {
        match self {
            Kind::Retreat => 0,
            Kind::Advance => 1,
            Kind::Apply => 2,
            Kind::Open => 3,
            Kind::Other(word) => word,
        }
    }
}

// A lent list, how many steps were written into it, and the events that they move. 128 bits hold the sum of any list's steps, so no function
// that writes asks for a bound; that a call's sum fits 64 is asked once, where it is answered. A writer beside `graph`'s `Records`: each step
// counts in `moved`, and this crate does not know `graph`. Each contract says `same_list`, of a call's begin and end: no invariant can hold it.
#[derive(Drop)]
pub struct Steps<'a> {
    list: &'a mut [u32],
    count: u64,
    moved: u128,
    ghost small: { moved < (count + 1) * 2 ^ 64 },
}

impl<'a> Steps<'a> {
    ghost use Rattle.moves.specs.Emit.{going, so_far, written, same_list, put_words, step_of, emit_one, emit, applies, ByCount};

    // Nothing written yet.
    pub fn over(list: &'a mut [u32]) -> Steps<'a>
        ensures over { result.list.ghost_name ≡ list.entry.ghost_name }
        ensures begun { so_far result ≡ (going 0 0, list.old) }
        ensures small { ByCount (so_far result) }
    {
        Steps::going_on(list, 0, 0)
    }

    // After so many steps that another writer left in the list, which moved so many events.
    pub fn going_on(list: &'a mut [u32], count: u64, moved: u64) -> Steps<'a>
        ensures over { result.list.ghost_name ≡ list.entry.ghost_name }
        ensures begun { so_far result ≡ (going count moved, list.old) }
    {
        Steps {
            list: list,
            count: count,
            moved: u128::from(moved),
        }
    }

    // Three words after the others, a step that moves so many events, if they fit.
    pub fn put(&mut self, words: [u32; 3], events: u64) -> Result<(), Refusal>
        ensures same_list { same_list self.new self.old }
        ensures steps_after { written result self.new ≡ put_words (so_far self.old) (get_or words 0 0) (get_or words 1 0) (get_or words 2 0) events }
        ensures small { ByCount (so_far self.old) → ByCount (so_far self.new) }
    {
        let n = self.count as usize;
        if self.list.len() / 3 <= n {
            return Err(Refusal::ListTooShort);
        }
        let at = 3 * n;
        self.list[at] = words[0];
        self.list[at + 1] = words[1];
        self.list[at + 2] = words[2];
        self.count += 1;
        self.moved += u128::from(events);
        Ok(())
    }

    // A step of a kind.
    pub fn put_step(&mut self, kind: Kind, a: u32, b: u32, events: u64) -> Result<(), Refusal>
        ensures same_list { same_list self.new self.old }
        ensures steps_after { written result self.new ≡ emit_one (so_far self.old) (step_of kind a b events) }
        ensures small { ByCount (so_far self.old) → ByCount (so_far self.new) }
    {
        self.put([kind.word(), a, b], events)
    }

    // Apply of each run from `first` up to `end`.
    pub fn put_applies(&mut self, first: u32, end: u32) -> Result<(), Refusal>
        ensures same_list { same_list self.new self.old }
        ensures steps_after { written result self.new ≡ emit (so_far self.old) (applies first (end - first)) }
        ensures small { ByCount (so_far self.old) → ByCount (so_far self.new) }
    {
        for run in first..end {
            self.put_step(Kind::Apply, run, run + 1, 0)?;
        }
        Ok(())
    }

    // What a call answers after its last step, by what came of them.
    pub fn walked(&self, outcome: Result<(), Refusal>) -> Walked
        requires { self.now.moved < 2 ^ 64 }
        ensures { result ≡ (written outcome self.now).0 }
    {
        Walked {
            count: self.count,
            moved: self.moved as u64,
            outcome,
        }
    }
}
