// What a walk asks of a range before anything is written, in one test of the graph.
ghost use Rattle.std.specs.Prelude.{◌≡◌, Ok, Err, IfOk, IfErr};
ghost use Rattle.model.specs.Walk.{range_outcome};

use crate::held::HeldGraph;
use model::{CausalGraph, EventRunIndex, Refusal};

// The graph, where it is not broken, a range of its runs lies inside it, and `known` is at most the range's length: else refusals 1, 9, 12.
pub fn range_outcome(
    g: CausalGraph,
    first: EventRunIndex,
    end: EventRunIndex,
    known: u32,
) -> Result<HeldGraph, Refusal>
    ensures inside { IfOk result (λ h. (h.graph ≡ g) × (range_outcome g first.0 end.0 known ≡ Ok tt)) }
    ensures refused { IfErr result (λ r. range_outcome g first.0 end.0 known ≡ Err r) }
{
    let held = HeldGraph::of(g)?;
    if end < first {
        return Err(Refusal::Outside);
    }
    if held.graph.run_count < end.0 as usize {
        return Err(Refusal::Outside);
    }
    if end.0 - first.0 < known {
        return Err(Refusal::KnownTooLong);
    }
    Ok(held)
}
