// A visit's steps: retreats and advances, chain by chain, consecutive runs joined, and Apply.
ghost use Rattle.std.specs.Prelude.{◌≡◌, ◌<◌};
ghost use Rattle.model.specs.Limits.{max_runs};
ghost use Rattle.moves.specs.Emit.{so_far, written, same_list, emit, ByCount};
ghost use Rattle.moves.specs.Stretches.{Below, stretches};
ghost use Rattle.moves.specs.Moves.{runs_of, moves_from, visit_of};

use crate::spans;
use crate::spans::Runs;
use crate::writing::{Kind, Steps};
use model::Refusal;
use tables::words::item;

// Each chain's members, one chain after another, where each chain's begin, and how many chains there are.
#[derive(Clone, Copy)]
pub struct Chains<'a> {
    pub members: &'a [u32],
    pub begins: &'a [u32],
    pub count: usize,
    pub ghost small: { Below max_runs members.now },
}

// The runs of one chain that are in one version and not in the other. What a version has past the members' end counts as nothing, so
// nothing is asked of a version.
fn put_chain(
    steps: &mut Steps,
    runs: Runs,
    kind: Kind,
    chains: Chains,
    from: &[u32],
    to: &[u32],
    c: usize,
) -> Result<(), Refusal>
    ensures same_list { same_list steps.new steps.old }
    ensures steps_after { written result steps.new ≡ emit (so_far steps.old)
        (stretches runs.entry.starts.now kind runs.entry.base (runs_of chains.entry.members.now chains.entry.begins.now from.now to.now c)) }
    ensures small { ByCount (so_far steps.old) → ByCount (so_far steps.new) }
{
    let lo = item(to, c, 0) as usize;
    let hi = item(from, c, 0) as usize;
    if hi <= lo {
        return Ok(());
    }
    let b = item(chains.begins, c, 0) as usize;
    let e = (b + hi).min(chains.members.len());
    let s = (b + lo).min(e);
    spans::put_stretches(steps, runs, kind, &chains.members[s..e])
}

// All chains, in order.
fn put_moves(
    steps: &mut Steps,
    runs: Runs,
    kind: Kind,
    chains: Chains,
    from: &[u32],
    to: &[u32],
) -> Result<(), Refusal>
    ensures same_list { same_list steps.new steps.old }
    ensures steps_after { written result steps.new ≡ emit (so_far steps.old)
        (moves_from runs.entry.starts.now kind runs.entry.base chains.entry.members.now chains.entry.begins.now from.now to.now 0 chains.entry.count) }
    ensures small { ByCount (so_far steps.old) → ByCount (so_far steps.new) }
{
    for c in 0..chains.count {
        put_chain(steps, runs, kind, chains, from, to, c)?;
    }
    Ok(())
}

// A visit of a run with this row, from the current version.
pub fn put_visit(
    steps: &mut Steps,
    runs: Runs,
    chains: Chains,
    current: &[u32],
    row: &[u32],
    run: u32,
) -> Result<(), Refusal>
    requires { run < max_runs }
    ensures same_list { same_list steps.new steps.old }
    ensures steps_after { written result steps.new ≡ emit (so_far steps.old)
        (visit_of runs.entry.starts.now runs.entry.base chains.entry.members.now chains.entry.begins.now current.now row.now chains.entry.count run) }
    ensures small { ByCount (so_far steps.old) → ByCount (so_far steps.new) }
{
    put_moves(steps, runs, Kind::Retreat, chains, current, row)?;
    put_moves(steps, runs, Kind::Advance, chains, row, current)?;
    let at = runs.base + run;
    steps.put_step(Kind::Apply, at, at + 1, 0)
}
