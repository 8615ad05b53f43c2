// Covers in words, so many to a run, and weights.
ghost use Rattle.std.specs.Prelude.{◌≡◌, ◌+◌, ◌*◌, ◌<◌, ◌≤◌, ◌^◌, length, replicate};
ghost use Rattle.lists.specs.Lists.{count};
ghost use Rattle.model.specs.Limits.{cover_bits, max_runs};
ghost use Rattle.model.specs.Cover.{per_bit, either};
ghost use Rattle.tables.specs.Covers.{word_bits, cover_words, bits_in, cover_at, range_bits, join_of, offset, Inside, Covered, Weighable, Weighted};

use crate::jagged::Jagged;
use crate::words::item;
use model::COVER_BITS;

// A word of a cover, and its bits. How wide a word is stands here and in specs/Covers.antt, and nowhere else.
pub type CoverWord = u8;

const WORD_BITS: usize = 8;

// The words of a run's cover: its bits, and one that is never set.
pub const COVER_WORDS: usize = (COVER_BITS + 1) / WORD_BITS;

// The bits from `low` up to `high`, in a run's words of zeros.
fn own_bits(z: &mut [CoverWord], low: usize, high: usize)
    requires zeros { z.old ≡ replicate cover_words 0 }
    requires rising { low ≤ high }
    requires within { high ≤ cover_bits }
    ensures { bits_in word_bits z.new ≡ range_bits low high }
{
    for i in low..high {
        z[i / WORD_BITS] |= 1 << (i % WORD_BITS);
    }
}

// How many bits of words are set.
fn count_bits(y: &[CoverWord]) -> u32
    requires { length y.now ≤ 4096 }
    ensures { result ≡ count (λ b. b) (bits_in word_bits y.now) }
{
    y.iter().map(|x| x.count_ones()).sum()
}

// A run's cover into another's words.
fn join_run(z: &mut [CoverWord], covers: &[CoverWord], x: u32)
    requires whole { length z.old ≡ cover_words }
    requires inside { x * cover_words + cover_words ≤ length covers.now }
    ensures { bits_in word_bits z.new ≡ either (cover_at covers.now x) (bits_in word_bits z.old) }
{
    let a = x as usize * COVER_WORDS;
    for (i, w) in covers[a..a + COVER_WORDS].iter().enumerate() {
        z[i] |= *w;
    }
}

// The covers of a run's children into its own.
fn join_children(z: &mut [CoverWord], covers: &[CoverWord], children: &[u32])
    requires whole { length z.old ≡ cover_words }
    requires inside { Inside covers.now children.now }
    ensures { bits_in word_bits z.new ≡ join_of (bits_in word_bits z.old) (cover_at covers.now) children.now }
{
    for x in children {
        join_run(z, covers, *x);
    }
}

// The events of a bit.
fn per_bit(events: usize) -> usize
    ensures value { result ≡ per_bit events }
    ensures some { 0 < result }
{
    events.div_ceil(COVER_BITS).max(1)
}

// How far into the range run r starts.
fn offset_of(starts: &[u32], r: usize) -> usize
    ensures value { result ≡ offset starts.now r }
    ensures small { result < 2 ^ 32 }
{
    item(starts, r, 0).saturating_sub(item(starts, 0, 0)) as usize
}

// Run r's cover, of the bits from `low` up to `high` and its children's, and its weight. That a number is below `max_runs` is a clause, here and
// in three functions more: lists and steps have bare numbers.
fn weigh_run(covers: &mut [CoverWord], low: usize, high: usize, r: usize, children: &[u32]) -> u32
    requires rising { low ≤ high }
    requires within { high ≤ cover_bits }
    requires few { r < max_runs }
    requires room { r * cover_words + cover_words ≤ length covers.old }
    requires inside { Inside covers.old children.now }
    ensures value { result ≡ count (λ b. b) (join_of (range_bits low high) (cover_at covers.old) children.now) }
    ensures covered { Covered r (join_of (range_bits low high) (cover_at covers.old) children.now) covers.new covers.old }
{
    let mut z: [CoverWord; COVER_WORDS] = [0; COVER_WORDS];
    own_bits(&mut z, low, high);
    join_children(&mut z, covers, children);
    let at = r * COVER_WORDS;
    covers[at..at + COVER_WORDS].copy_from_slice(&z);
    count_bits(&z)
}

// The weights of n runs, the last first: of each list, which may have room for more, the first n places.
pub fn weights_of(
    weights: &mut [u32],
    covers: &mut [CoverWord],
    starts: &[u32],
    begins: &[u32],
    children: &[u32],
    n: usize,
)
    requires { (n ≤ length weights.old) × (n * cover_words ≤ length covers.old) × Weighable starts.now begins.now children.now n }
    ensures { Weighted starts.now begins.now children.now n weights.new }
{
    let per = per_bit(offset_of(starts, n));
    let kids = Jagged::new(begins, children, n);
    for r in (0..n).rev() {
        let low = offset_of(starts, r) / per;
        let high = offset_of(starts, r + 1).div_ceil(per);
        weights[r] = weigh_run(covers, low, high, r, kids.row(r));
    }
}
