// The distance of two versions by prefix sums along the chains, and the sizes of the runs' histories.
ghost use Rattle.std.specs.Prelude.{◌≡◌, ◌+◌, ◌-◌, ◌≤◌, ◌^◌, length, get_or};
ghost use Rattle.model.specs.Limits.{max_runs};
ghost use Rattle.tables.specs.Gaps.{gap_at, gaps_from};
ghost use Rattle.tables.specs.Sizes.{Bounded, Within, share_at, events_from, Sized};

use crate::jagged::Jagged;
use crate::words::item;

// The events of the chains' members: prefix sums of them, where each chain's members begin, and how many chains there are.
#[derive(Clone, Copy)]
pub struct Sums<'a> {
    pub before: &'a [u64],
    pub begins: &'a [u32],
    pub chains: usize,
    pub ghost few: { chains ≤ max_runs },
    pub ghost small: { Bounded (2 ^ 41) before.now },
}

impl<'a> Sums<'a> {
    // The events before a place of the chain whose members begin at `begin`.
    fn up_to(self, begin: u32, place: u32) -> u64
        ensures value { result ≡ get_or self.entry.before.now (begin + place) 0 }
        ensures small { result ≤ 2 ^ 41 }
    {
        item(self.before, begin as usize + place as usize, 0)
    }

    // The events in just one of the two versions along one chain.
    fn gap(self, current: &[u32], row: &[u32], c: usize) -> u64
        ensures value { result ≡ gap_at self.entry.before.now self.entry.begins.now current.now row.now c }
        ensures small { result ≤ 2 ^ 41 }
    {
        let begin = item(self.begins, c, 0);
        self.up_to(begin, item(current, c, 0))
            .abs_diff(self.up_to(begin, item(row, c, 0)))
    }

    // The events in just one of the two versions, counted until past `limit`.
    pub fn distance(self, current: &[u32], row: &[u32], limit: u64) -> u64
        ensures value { Within limit (gaps_from self.entry.before.now self.entry.begins.now current.now row.now 0 self.entry.chains) result }
        ensures small { result ≤ 2 ^ 50 }
    {
        let mut sum: u64 = 0;
        for c in 0..self.chains {
            sum += self.gap(current, row, c);
            if limit < sum {
                return sum;
            }
        }
        sum
    }

    // The events of a version along one chain. Beside `gap`: a difference that stops at 0, where that one is taken either way.
    fn share(self, row: &[u32], c: usize) -> u64
        ensures value { result ≡ share_at self.entry.before.now self.entry.begins.now row.now c }
        ensures small { result ≤ 2 ^ 41 }
    {
        let begin = item(self.begins, c, 0);
        self.up_to(begin, item(row, c, 0))
            .saturating_sub(self.up_to(begin, 0))
    }

    // The events of a version. Beside `distance`: it has no limit to break off at, and one version only.
    pub fn events_of(self, row: &[u32]) -> u64
        ensures value { result ≡ events_from self.entry.before.now self.entry.begins.now row.now 0 self.entry.chains }
        ensures small { result ≤ 2 ^ 50 }
    {
        let mut sum: u64 = 0;
        for c in 0..self.chains {
            sum += self.share(row, c);
        }
        sum
    }
}

// The events of each run's history, by the runs' rows.
pub fn sizes_of(sizes: &mut [u64], sums: Sums, rows: &Jagged)
    requires { length rows.now ≤ length sizes.old }
    ensures { Sized sums.entry.before.now sums.entry.begins.now rows.now sums.entry.chains (length rows.now) sizes.new }
{
    for r in 0..rows.len() {
        sizes[r] = sums.events_of(rows.row(r));
    }
}
