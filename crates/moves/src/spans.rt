// Runs in stretches of consecutive numbers, a step for each.
ghost use Rattle.std.specs.Prelude.{◌≡◌, ◌+◌, ◌-◌, ◌<◌, ◌^◌, get_or};
ghost use Rattle.model.specs.Limits.{max_runs};
ghost use Rattle.moves.specs.Emit.{so_far, written, same_list, emit_one, emit, ByCount};
ghost use Rattle.moves.specs.Stretches.{Below, span_of, stretches};

use crate::writing::{Kind, Steps};
use model::Refusal;
use tables::words::item;

// The runs of a range as steps name them: where the graph's runs start, and the graph's run at which the range begins.
// The kind of a step is no part of them: a visit has one range, and moves of two kinds.
#[derive(Clone, Copy)]
pub struct Runs<'a> {
    pub starts: &'a [u32],
    pub base: u32,
    pub ghost low: { base < 2 ^ 31 },
}

// The events from one run's start to another's.
fn span(starts: &[u32], a: u32, b: u32) -> u32
    ensures { result ≡ get_or starts.now b 0 - get_or starts.now a 0 }
{
    item(starts, b as usize, 0).saturating_sub(item(starts, a as usize, 0))
}

// A step for the runs `first` to `last`.
fn put_span(steps: &mut Steps, runs: Runs, kind: Kind, first: u32, last: u32) -> Result<(), Refusal>
    requires { (first < max_runs) × (last < max_runs) }
    ensures same_list { same_list steps.new steps.old }
    ensures steps_after { written result steps.new ≡ emit_one (so_far steps.old) (span_of runs.entry.starts.now kind runs.entry.base first last) }
    ensures small { ByCount (so_far steps.old) → ByCount (so_far steps.new) }
{
    let a = runs.base + first;
    let b = runs.base + last + 1;
    let events = u64::from(span(runs.starts, a, b));
    steps.put_step(kind, a, b, events)
}

// A step for each stretch of consecutive runs of a list.
pub fn put_stretches(steps: &mut Steps, runs: Runs, kind: Kind, list: &[u32]) -> Result<(), Refusal>
    requires { Below max_runs list.now }
    ensures same_list { same_list steps.new steps.old }
    ensures steps_after { written result steps.new ≡ emit (so_far steps.old) (stretches runs.entry.starts.now kind runs.entry.base list.now) }
    ensures small { ByCount (so_far steps.old) → ByCount (so_far steps.new) }
{
    let [head, more @ ..] = list else {
        return Ok(());
    };
    let mut first = *head;
    let mut last = *head;
    for run in more {
        if *run != last + 1 {
            put_span(steps, runs, kind, first, last)?;
            first = *run;
        }
        last = *run;
    }
    put_span(steps, runs, kind, first, last)
}
