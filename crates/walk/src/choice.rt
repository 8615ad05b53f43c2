// The nearest of the last 64 ready runs, newest first.
ghost use Rattle.std.specs.Prelude.{◌≡◌, ◌≤◌, ◌<◌, ◌^◌, None, min, length};
ghost use Rattle.model.specs.Limits.{max_weighed};
ghost use Rattle.tables.specs.Sizes.{Within, events_from};
ghost use Rattle.walk.specs.Given.{begins_in, sums_in};
ghost use Rattle.walk.specs.Choose.{is_lower, try_of, free_c, beaten_c, limit_c, weigh_c, is_only, only_c, cost_c, weight_c, scan_c, AllIn};

use crate::given::Given;
use crate::ready::Waits;
use model::MAX_WEIGHED;

// The best so far: its cost, weight and place in the ready list.
#[derive(Clone, Copy)]
pub(crate) struct Best {
    pub(crate) cost: u64,
    pub(crate) weight: u64,
    pub(crate) at: usize,
}

// Whether (cost, weight) is strictly lower. No derived order: that would go on to the place, and a tie stays with the newer.
fn is_lower(a: Best, b: Best) -> bool
    ensures { result ≡ is_lower a b }
{
    (a.cost, a.weight) < (b.cost, b.weight)
}

// Strictly lower (cost, weight) takes over; a tie stays with the newer, which came first.
#[tactic(auto, unfolding(crate::specs::Choose::try_of))]
fn consider(best: Option<Best>, new: Best) -> Option<Best>
    ensures { result ≡ try_of best new }
{
    match best {
        Some(b) if !is_lower(new, b) => best,
        _ => Some(new),
    }
}

// Whether a run's only parent is the last run visited.
#[tactic(auto, unfolding(crate::specs::Choose::is_only))]
fn is_only_parent(parents: &[u32], last: Option<u32>) -> bool
    ensures { result ≡ is_only parents.now last }
{
    match last {
        Some(run) => parents == [run].as_slice(),
        None => false,
    }
}

// Whether the best so far costs nothing.
#[tactic(auto, unfolding(crate::specs::Choose::free_c))]
fn is_free(best: Option<Best>) -> bool
    ensures { result ≡ free_c best }
{
    match best {
        Some(b) => b.cost == 0,
        None => false,
    }
}

// Whether a run that costs `least` or more, with this weight, cannot take over. Asked of nearly every candidate: written with tuples
// it was slower (forks on a trunk, by a tenth).
#[tactic(auto, unfolding(crate::specs::Choose::beaten_c))]
fn is_beaten(best: Option<Best>, least: u64, weight: u64) -> bool
    ensures { result ≡ beaten_c best least weight }
{
    match best {
        Some(b) => b.cost < least || (b.cost == least && b.weight <= weight),
        None => false,
    }
}

// Past this cost a run cannot take over.
#[tactic(auto, unfolding(crate::specs::Choose::limit_c))]
fn limit(best: Option<Best>) -> u64
    ensures { result ≡ limit_c best }
{
    match best {
        Some(b) => b.cost,
        None => u64::MAX,
    }
}

// The events in just one of the current version and the run's history, counted until past the best cost.
fn cost_of(best: Option<Best>, given: &Given, current: &[u32], run: usize) -> u64
    requires { run < given.now.runs }
    ensures { Within (limit_c best) (cost_c given.now current.now run) result × (result ≤ 2 ^ 50) }
{
    given.sums().distance(current, given.row(run), limit(best))
}

// A candidate: cost 0 where its only parent is the last run visited; passed over once the best costs nothing, or where the
// sizes of the two versions are too far apart; else by its distance. `here` is the current version's size.
fn weigh(
    best: Option<Best>,
    given: &Given,
    current: &[u32],
    here: u64,
    last: Option<u32>,
    run: usize,
    at: usize,
) -> Option<Best>
    requires run { run < given.now.runs }
    requires here { here ≡ events_from (sums_in given.now) (begins_in given.now) current.now 0 given.now.chains }
    ensures { result ≡ weigh_c (only_c given.now last run) (cost_c given.now current.now run) (weight_c given.now run) at best }
{
    let weight = given.weight(run);
    if is_only_parent(given.parents(run), last) {
        return consider(
            best,
            Best {
                cost: 0,
                weight,
                at,
            },
        );
    }
    if is_free(best) {
        return best;
    }
    if is_beaten(best, here.abs_diff(given.size(run)), weight) {
        return best;
    }
    let cost = cost_of(best, given, current, run);
    consider(best, Best { cost, weight, at })
}

// The best of the last 64 ready runs, newest first.
pub(crate) fn nearest(
    given: &Given,
    current: &[u32],
    waits: &Waits,
    last: Option<u32>,
) -> Option<Best>
    requires room { waits.now.0 ≤ length waits.now.2 }
    requires ready { AllIn waits.now.2 waits.now.0 given.now.runs }
    ensures { result ≡ scan_c (only_c given.now last) (cost_c given.now current.now) (weight_c given.now) waits.now.2 waits.now.0 0 (min max_weighed waits.now.0) None }
{
    let here = given.sums().events_of(current);
    let m = waits.count;
    let mut best = None;
    for at in (m.saturating_sub(MAX_WEIGHED)..m).rev() {
        let run = waits.ready[at] as usize;
        best = weigh(best, given, current, here, last, run, at);
    }
    best
}
