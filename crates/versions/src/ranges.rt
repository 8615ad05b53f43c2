// What ranges of events mark, run by run, in linear time. An event is marked exactly if the words at most it are odd in number, and the next
// word is then its range's end. Each pass goes forward over the runs and the words together.
ghost use Rattle.std.specs.Prelude.{◌≡◌, true, false, ◌-◌, ◌≤◌, length, leb, take_while};
ghost use Rattle.std.specs.Option.{MatchOption};
ghost use Rattle.lists.specs.Lists.{all, upto};
ghost use Rattle.model.specs.Wanted;
ghost use Rattle.versions.specs.Ranges.{place_of, words_within, clear_at, end_at, clear_in, Ends, Starts};

use model::{EventIndex, MAX_RUNS};

// How many words come before the first that is above an event.
fn count_at_most(words: &[u32], e: EventIndex) -> usize
    ensures { result ≡ length (take_while (λ w. leb w e.0) words.now) }
{
    words.iter().take_while(|w| EventIndex(**w) <= e).count()
}

// Ranges of events, as words: a first and its end in turn, rising.
#[derive(Clone, Copy)]
pub(crate) struct EventRanges<'a> {
    pub(crate) words: &'a [u32],
    pub(crate) ghost paired: { Wanted.ranges words.now ≡ true },
}

impl<'a> EventRanges<'a> {
    // Words as ranges, if they are such.
    #[tactic(auto, using(crate::proofs::RangeTurns::pairing), unfolding(crate::specs::Ranges::is_odd))]
    pub(crate) fn of_words(words: &'a [u32]) -> Option<EventRanges<'a>>
        ensures { MatchOption result (Wanted.ranges words.now ≡ false) (λ r. r.words.now ≡ words.now) }
    {
        if words.len() % 2 == 1 {
            return None;
        }
        if !lists::is_rising(words) {
            return None;
        }
        Some(EventRanges { words })
    }

    // Whether no word is below `first` or above `end`.
    #[tactic(auto, using(std::proofs::lemmas::Option::gets), unfolding(crate::specs::Ranges::words_within))]
    pub(crate) fn are_within(self, first: EventIndex, end: EventIndex) -> bool
        ensures { result ≡ words_within first.0 end.0 self.entry.words.now }
    {
        match (self.words.first(), self.words.last()) {
            (Some(low), Some(high)) => first <= EventIndex(*low) && EventIndex(*high) <= end,
            _ => true,
        }
    }

    // How many of the words are at most an event, where `from` of them are.
    #[tactic(auto, using(crate::proofs::RangeTurns::placing))]
    fn place(self, from: usize, e: EventIndex) -> usize
        requires { from ≤ place_of self.words.now e.0 }
        ensures { result ≡ place_of self.entry.words.now e.0 }
    {
        from + count_at_most(&self.words[from..], e)
    }

    // Whether no range begins at place k or behind it and before `end`.
    #[tactic(auto, unfolding(crate::specs::Ranges::clear_at))]
    fn is_clear(self, k: usize, end: EventIndex) -> bool
        ensures { result ≡ clear_at self.entry.words.now k end.0 }
    {
        if self.words.len() <= k {
            return true;
        }
        let next = k + k % 2;
        self.words.len() <= next || end <= EventIndex(self.words[next])
    }

    // Whether no range begins inside a run, by where each run starts, and last where the last one ends.
    pub(crate) fn all_clear(self, starts: &[u32]) -> bool
        requires { Starts starts.now (length starts.now - 1) }
        ensures { result ≡ all (clear_in starts.now self.entry.words.now) (upto (length starts.now - 1)) }
    {
        let mut k = 0;
        for (start, next) in starts.iter().zip(&starts[1..]) {
            k = self.place(k, EventIndex(*start));
            if !self.is_clear(k, EventIndex(*next)) {
                return false;
            }
        }
        true
    }

    // The end of what is marked from an event up to `end`, where k words are at most that event, if it is marked.
    #[tactic(auto, using(crate::proofs::RangeTurns::placing), unfolding(crate::specs::Ranges::end_at, crate::specs::Ranges::is_odd))]
    fn end_at(self, k: usize, end: EventIndex) -> Option<EventIndex>
        requires { k ≤ length self.words.now }
        ensures { result ≡ end_at self.entry.words.now k end.0 }
    {
        if k % 2 == 0 {
            return None;
        }
        Some(EventIndex(self.words[k]).min(end))
    }

    // The end of what is marked of each run, if its first event is.
    pub(crate) fn marked_ends(self, starts: &[u32]) -> [Option<EventIndex>; MAX_RUNS]
        requires { Starts starts.now (length starts.now - 1) }
        ensures { Ends starts.now self.entry.words.now (length starts.now - 1) result }
    {
        let mut ends = [None; MAX_RUNS];
        let mut k = 0;
        for r in 0..starts.len() - 1 {
            k = self.place(k, EventIndex(starts[r]));
            ends[r] = self.end_at(k, EventIndex(starts[r + 1]));
        }
        ends
    }
}
