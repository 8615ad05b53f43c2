// A book's words, taken from its front.
ghost use Rattle.std.specs.Prelude.{◌≡◌, [], ◌∷◌, ◌/◌, ◌*◌, ◌+◌, ◌≤◌, drop, length, MatchOption};
ghost use Rattle.std.proofs.Math.Option.{none, some};
ghost use Rattle.model.specs.Book.{word, words_of, take_words, take_counted};

// What is left of a book: its bytes, and the whole words that they begin with.
#[derive(Clone, Copy)]
pub(crate) struct Words<'a> {
    pub(crate) bytes: &'a [u8],
    pub(crate) words: &'a [u32],
    ghost decoded: { words.now ≡ words_of (length bytes.now / 4) bytes.now },
}

// The little-endian word whose bytes stand from `at` on.
fn word_at(bytes: &[u8], at: usize) -> u32
    requires { at + 4 ≤ length bytes.now }
    ensures { result ≡ word (drop at bytes.now) }
{
    u32::from_le_bytes([bytes[at], bytes[at + 1], bytes[at + 2], bytes[at + 3]])
}

// The little-endian words that bytes begin with, as many as the list has places.
pub(crate) fn decode(bytes: &[u8], words: &mut [u32])
    requires { 4 * length words.old ≤ length bytes.now }
    ensures { words.new ≡ words_of (length words.old) bytes.now }
{
    for (k, place) in words.iter_mut().enumerate() {
        *place = word_at(bytes, 4 * k);
    }
}

impl<'a> Words<'a> {
    // The next `n` words, and what is left after them; none where the book ends first.
    pub(crate) fn take(self, n: usize) -> Option<(&'a [u32], Words<'a>)>
        ensures { MatchOption result (take_words n self.entry.bytes.now ≡ none)
            (λ t. take_words n self.entry.bytes.now ≡ some (t.0.now, t.1.bytes.now)) }
    {
        let (taken, words) = self.words.split_at_checked(n)?;
        let (_, bytes) = self.bytes.split_at(4 * n);
        Some((taken, Words { bytes, words }))
    }

    // The next word.
    #[tactic(auto, using(crate::proofs::Decoding::one_word))]
    pub(crate) fn next(self) -> Option<(u32, Words<'a>)>
        ensures { MatchOption result (take_words 1 self.entry.bytes.now ≡ none)
            (λ t. take_words 1 self.entry.bytes.now ≡ some (t.0 ∷ [], t.1.bytes.now)) }
    {
        let (taken, left) = self.take(1)?;
        Some((taken[0], left))
    }

    // A count, and as many words as it says.
    #[tactic(auto, using(crate::proofs::Taking::counted_none, crate::proofs::Taking::counted_by))]
    pub(crate) fn take_counted(self) -> Option<(&'a [u32], Words<'a>)>
        ensures { MatchOption result (take_counted self.entry.bytes.now ≡ none)
            (λ t. take_counted self.entry.bytes.now ≡ some (t.0.now, t.1.bytes.now)) }
    {
        let (count, left) = self.next()?;
        left.take(count as usize)
    }
}
