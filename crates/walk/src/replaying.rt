// Full replay: the ranges of the cut, one after another.
ghost use Rattle.std.specs.Prelude.{◌≡◌, ◌+◌, ◌-◌, ◌*◌, ◌^◌, ◌≤◌};
ghost use Rattle.model.specs.Replay.{replay_of};
ghost use Rattle.moves.specs.Emit.{so_far, written, same_list};
ghost use Rattle.walk.specs.Ranges.{ArraysOf, range_at};
ghost use Rattle.walk.specs.Walked.{replay_on, replay_all};
ghost use Rattle.walk.specs.CutRecords.{range_by, ranges_in, Tiled};

use crate::areas::Areas;
use crate::walking;
use crate::walking::Bounds;
use graph::cut::RangeKind;
use graph::held::HeldGraph;
use model::{CausalGraph, EventRunIndex, MAX_RUNS, Refusal, Walked};
use moves::writing::{Kind, Steps};

// One range of the cut: Open, then its runs in order or its walk.
fn replay_next(
    kind: RangeKind,
    a: EventRunIndex,
    b: EventRunIndex,
    graph: &CausalGraph,
    rows: &mut [u32],
    steps: &mut Steps,
    areas: &mut Areas,
) -> Result<(), Refusal>
    requires arrays { ArraysOf graph.now b.0 }
    requires order { a.0 ≤ b.0 }
    ensures same_list { same_list steps.new steps.old }
    ensures steps_after { (written result steps.new, rows.new) ≡ replay_on graph.now.starts (range_at graph.now) (so_far steps.old, rows.old) (range_by kind a.0 b.0) }
    ensures moved_bound { (so_far steps.new).0.moved ≤ (so_far steps.old).0.moved + (b.0 - a.0) * 2 ^ 52 }
{
    steps.put_step(Kind::Open, a.0, b.0, 0)?;
    match kind {
        RangeKind::Linear => steps.put_applies(a.0, b.0),
        RangeKind::Concurrent => {
            let bounds = Bounds {
                from: a,
                end: b,
                known: 0,
                first: 0,
            };
            walking::walk_range(bounds, graph, rows, steps, areas)
        }
    }
}

// The ranges of a cut, one after another.
fn replay_all(
    ranges: &[[u32; 3]],
    graph: &CausalGraph,
    rows: &mut [u32],
    steps: &mut Steps,
) -> Result<(), Refusal>
    requires { Tiled graph.now ranges.now }
    ensures same_list { same_list steps.new steps.old }
    ensures steps_after { (written result steps.new, rows.new) ≡ replay_all graph.now.starts (range_at graph.now) (so_far steps.old, rows.old) (ranges_in ranges.now) }
{
    let mut areas = Areas::new();
    for [word, a, b] in ranges {
        replay_next(
            RangeKind::from(*word),
            EventRunIndex(*a),
            EventRunIndex(*b),
            graph,
            rows,
            steps,
            &mut areas,
        )?;
    }
    Ok(())
}

// Full replay of a graph that is known not to be broken.
pub fn replay_held(g: &HeldGraph, rows: &mut [u32], steps: &mut [u32]) -> Walked
    ensures { (result, rows.new, steps.new) ≡ replay_of g.now.graph rows.old steps.old }
{
    walking::starts_fit(&g.graph.starts);
    // Three words for each range, of which there are at most as many as runs.
    let mut cut = [0; 3 * MAX_RUNS];
    let w = graph::cut::cut_held(g, EventRunIndex(0), &mut cut);
    let (ranges, _) = cut[..3 * w.count].as_chunks();
    let mut written = Steps::over(steps);
    let outcome = replay_all(ranges, &g.graph, rows, &mut written);
    written.walked(outcome)
}

// Full replay: rows of each range into `rows`, all steps into `steps`.
pub fn replay(g: CausalGraph, rows: &mut [u32], steps: &mut [u32]) -> Walked
    ensures { (result, rows.new, steps.new) ≡ replay_of g rows.old steps.old }
{
    match HeldGraph::of(g) {
        Ok(held) => replay_held(&held, rows, steps),
        Err(r) => Steps::over(steps).walked(Err(r)),
    }
}
