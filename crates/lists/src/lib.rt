#![tactic(auto)]

// Scans, insertions and filters over lists of numbers. What they find and leave is in specs/. It knows nothing of graphs.
mod kept;

ghost use Rattle.std.specs.Prelude.{◌≡◌, [], true, not, ◌&&◌, ℕ, ◌+◌, ◌<◌, ◌≤◌, ◌^◌, ◌-◌, get_or, length, take, drop};
ghost use Rattle.lists.specs.Lists.{rising, below, mem, filter};
ghost use Rattle.lists.specs.Areas.{zeros, pad, climbs, groups, part};
ghost use Rattle.lists.specs.Scans.{max_kept, grow, insert, groups_fit, between};

pub use kept::{Kept, MAX_KEPT, put_if};

// An array of zeros.
pub fn zeros<const N: usize>() -> [u32; N]
    ensures { result ≡ pad N [] }
{
    [0; N]
}

// Whether the numbers are strictly rising. This scan and the next three have no way out inside, so that they run many places at a time.
pub fn is_rising(s: &[u32]) -> bool
    ensures { result ≡ rising s.now }
{
    let mut rises = true;
    // `windows(2)` takes a fifth longer.
    for i in 1..s.len() {
        rises &= s[i - 1] < s[i];
    }
    rises
}

// Whether every number is 0.
#[tactic(auto, using(crate::proofs::Scanning::below_one))]
pub fn is_zero(s: &[u32]) -> bool
    ensures { result ≡ zeros s.now }
{
    all_below(s, 1)
}

// Whether every number from place `from` on is 0, as it is of a place past the end.
pub fn is_zero_from(s: &[u32], from: usize) -> bool
    ensures { result ≡ zeros (drop from s.now) }
{
    if s.len() <= from {
        return true;
    }
    is_zero(&s[from..])
}

// Whether the numbers are below `limit`.
pub fn all_below(s: &[u32], limit: u32) -> bool
    ensures { result ≡ below limit s.now }
{
    let mut is_below = true;
    for x in s {
        is_below &= *x < limit;
    }
    is_below
}

// Whether the numbers never fall, and the last of them is `last`. A scan of its own: one for this and `is_rising` would take the test of two
// neighbours as a closure, and say of that closure what each of the loops says here.
pub fn is_climb(s: &[u32], last: usize) -> bool
    ensures { result ≡ climbs last s.now }
{
    let Some(end) = s.last() else {
        return false;
    };
    let mut climbs = *end as usize == last;
    for i in 1..s.len() {
        climbs &= s[i - 1] <= s[i];
    }
    climbs
}

// Whether a group is strictly rising and below its number.
pub fn group_fits(group: &[u32], number: u32) -> bool
    ensures { result ≡ rising group.now && below number group.now }
{
    is_rising(group) && all_below(group, number)
}

// Whether each group between the starts, from group 0 on, is strictly rising and below its number.
pub fn groups_fit<'a>(starts: &'a [u32], items: &'a [u32]) -> bool
    requires starts_bound { length starts.now ≤ 2 ^ 32 }
    requires climbs { climbs (length items.now) starts.now ≡ true }
    ensures { result ≡ groups_fit 0 (groups starts.now items.now) }
{
    for r in 1..starts.len() {
        let from = starts[r - 1] as usize;
        let to = starts[r] as usize;
        if !group_fits(&items[from..to], r as u32 - 1) {
            return false;
        }
    }
    true
}

// Whether each number is at least `first` and at most the number at its place in another list.
pub fn is_between<'a>(first: u32, highs: &'a [u32], s: &'a [u32]) -> bool
    requires { length s.now ≤ length highs.now }
    ensures { result ≡ between first highs.now s.now }
{
    s.iter()
        .zip(highs)
        .all(|(x, high)| first <= *x && *x <= *high)
}

// Those that are not among `ps`. Filters into a list by value differ in what they go over and in their test, and share `Kept`'s methods.
pub fn keep_all(a: &[u32], ps: &[u32]) -> Kept
    requires { length a.now ≤ max_kept }
    ensures { result ≡ filter (λ e. not (mem e ps.now)) a.now }
{
    let mut kept = Kept::new();
    for x in a {
        kept.push_if(!ps.contains(x), *x);
    }
    kept
}

// A number, grown if it is `from` or more.
fn grown(v: u32, from: u32, by: u32) -> u32
    requires { 0 < by → v + by < 2 ^ 32 }
    ensures { result ≡ grow from by v }
{
    if from <= v { v + by } else { v }
}

// Puts `item` in at `at` before the free last place, each later number from `from` on grown by `by` as it shifts.
pub fn insert_and_grow(a: &mut [u32], at: usize, item: u32, from: u32, by: u32)
    requires at_in_bounds { at < length a.old }
    requires by_bound { 0 < by → (k : ℕ) → k < length a.old - 1 → get_or a.old k 0 + by < 2 ^ 32 }
    ensures { a.new ≡ insert at item (grow from by) (take (length a.old - 1) a.old) }
{
    let last = a.len() - 1;
    for i in (at..last).rev() {
        a[i + 1] = grown(a[i], from, by);
    }
    a[at] = item;
}
