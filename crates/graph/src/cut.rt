// The history cut at its critical versions, into a lent list.
ghost use Rattle.std.specs.Prelude.{◌≡◌, Err, IfOk, IfErr, get_or, drop, eqb, position};
ghost use Rattle.model.specs.Cut.{cut_of, ranges_from};
ghost use Rattle.graph.specs.Records.{state, after, same_list};
ghost use Rattle.graph.specs.Cutting.{pending, join_on, put_ranges, cut_on, cutting};

use crate::broken::is_next;
use crate::held::HeldGraph;
use crate::records::{Records, unwritten};
use model::{CausalGraph, EventRunIndex, Refusal, Written};

// The kinds of a range, by the words that stand for them in a list.
#[derive(Clone, Copy, Debug, PartialEq, Eq)]
pub enum RangeKind {
    Linear = 0,
    Concurrent = 1,
}

// Any word other than 0 stands for Concurrent.
impl From<u32> for RangeKind {
    ghost use Rattle.std.specs.Prelude.{◌≡◌};
    ghost use Rattle.graph.specs.Kinds.{kind_of};

    ghost from_gives = { λ word kind. kind ≡ kind_of word };

    #[tactic(auto, unfolding(crate::specs::Kinds::kind_of))]
    fn from(word: u32) -> RangeKind {
        match word {
            0 => RangeKind::Linear,
            _ => RangeKind::Concurrent,
        }
    }
}

// Writes the Linear from `first` to `end`, if it has a run.
fn put_linear(out: &mut Records, first: EventRunIndex, end: EventRunIndex) -> Result<(), Refusal>
    ensures same_list { same_list out.new out.old }
    ensures written { after result out.new ≡ put_ranges (state out.old) (pending first.0 end.0) }
{
    if first < end {
        return out.put([RangeKind::Linear as u32, first.0, end.0]);
    }
    Ok(())
}

// One range more: it goes on with the Linear from `first` that is not written yet, or it is a Concurrent and that Linear ends before it.
// Answers where the Linear begins that is not written then.
fn cut_on(
    out: &mut Records,
    first: EventRunIndex,
    a: EventRunIndex,
    b: EventRunIndex,
) -> Result<EventRunIndex, Refusal>
    ensures same_list { same_list out.new out.old }
    ensures written { IfOk result (λ k. cutting k out.new ≡ cut_on (cutting first out.old) a.0 b.0) }
    ensures refused { IfErr result (λ r. after (Err r) out.new ≡ (cut_on (cutting first out.old) a.0 b.0).written) }
{
    if is_next(a.0, b.0) {
        return Ok(first);
    }
    put_linear(out, first, a)?;
    out.put([RangeKind::Concurrent as u32, a.0, b.0])?;
    Ok(b)
}

// The mark at i, or `end` past the marks.
fn mark_at(marks: &[u32], i: usize, end: EventRunIndex) -> EventRunIndex
    ensures { result.0 ≡ get_or marks.now i end.0 }
{
    marks.get(i).map_or(end, |m| EventRunIndex(*m))
}

// Where a run stands among the marks, if it does.
fn place_of(marks: &[u32], run: EventRunIndex) -> Option<usize>
    ensures { result ≡ position (λ m. eqb m run.0) marks.now }
{
    marks.iter().position(|m| *m == run.0)
}

// The ranges from the mark at `from` on, joined and written.
fn cut_from(
    marks: &[u32],
    from: usize,
    end: EventRunIndex,
    out: &mut Records,
) -> Result<(), Refusal>
    ensures same_list { same_list out.new out.old }
    ensures written { after result out.new ≡ put_ranges (state out.old)
        (join_on (get_or marks.now from end.0) (ranges_from (drop from marks.now) end.0) end.0) }
{
    let mut first = mark_at(marks, from, end);
    for i in from..marks.len() {
        first = cut_on(
            out,
            first,
            EventRunIndex(marks[i]),
            mark_at(marks, i + 1, end),
        )?;
    }
    put_linear(out, first, end)
}

// `split_at_critical_versions_from` on a graph that is known not to be broken.
pub fn cut_held(g: &HeldGraph, from: EventRunIndex, list: &mut [u32]) -> Written
    ensures { (result, list.new) ≡ cut_of g.now.graph from.0 list.old }
{
    let runs = g.graph.run_count;
    if runs == 0 {
        return Written {
            count: 0,
            outcome: Ok(()),
        };
    }
    if runs <= from.0 as usize {
        return unwritten(Refusal::Outside);
    }
    let marks = g.marks();
    let Some(at) = place_of(marks, from) else {
        return unwritten(Refusal::Unmarked);
    };
    let mut out = Records::over(list);
    let outcome = cut_from(marks, at, EventRunIndex(runs as u32), &mut out);
    out.written(outcome)
}

// The ranges from run `from` on into `list`: kind (0 Linear, 1 Concurrent), first run, end run (exclusive).
pub fn split_at_critical_versions_from(
    g: CausalGraph,
    from: EventRunIndex,
    list: &mut [u32],
) -> Written
    ensures { (result, list.new) ≡ cut_of g from.0 list.old }
{
    match HeldGraph::of(g) {
        Ok(held) => cut_held(&held, from, list),
        Err(r) => unwritten(r),
    }
}

// The ranges of the whole history.
pub fn split_at_critical_versions(g: CausalGraph, list: &mut [u32]) -> Written
    ensures { (result, list.new) ≡ cut_of g 0 list.old }
{
    split_at_critical_versions_from(g, EventRunIndex(0), list)
}
