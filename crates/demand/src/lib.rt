#![tactic(auto)]

// Demand 3 of code that runs: a list of calls, or a book, and then a full replay or a walk of the graph that was left. The contracts say
// what is left in the lent lists, and that it follows on the plain log of the same calls.
ghost use Rattle.calls.specs.Words.{called_by};
ghost use Rattle.demand.specs.Running.{book_by, Replayed, WalkedOver, BookPrinted};

use book::Printed;
use model::{EventRunIndex, Walked};

// The calls that the words say, and then a full replay. Words can say every list of calls: `calls::every_list`.
#[tactic(auto, using(crate::proofs::Ran::calls_replayed))]
pub fn replay_calls(words: &[u32], rows: &mut [u32], steps: &mut [u32]) -> Walked
    ensures { Replayed (called_by words.now)
        rows.old steps.old (result, rows.new, steps.new) }
{
    walk::replaying::replay(calls::made_by(words), rows, steps)
}

// The same calls, and then a walk, which is given `known` and `first` as 01's call is.
#[tactic(auto, using(crate::proofs::Ran::calls_walked))]
pub fn walk_calls(
    words: &[u32],
    first_run: EventRunIndex,
    end_run: EventRunIndex,
    known: u32,
    first: u32,
    rows: &mut [u32],
    steps: &mut [u32],
) -> Walked
    ensures { WalkedOver (called_by words.now) first_run.0 end_run.0 known first
        rows.old steps.old (result, rows.new, steps.new) }
{
    walk::walking::walk(
        calls::made_by(words),
        first_run,
        end_run,
        known,
        first,
        rows,
        steps,
    )
}

// A book's bytes, and then a full replay of the graph that it gives.
#[tactic(auto, using(crate::proofs::Ran::book_replayed))]
pub fn replay_book(bytes: &[u8], rows: &mut [u32], steps: &mut [u32]) -> Walked
    ensures { Replayed (book_by bytes.now)
        rows.old steps.old (result, rows.new, steps.new) }
{
    let read = book::reading::read(bytes);
    let g = read.graph;
    walk::replaying::replay(g, rows, steps)
}

// What `replay` prints of a book, into a lent buffer.
#[tactic(auto, using(crate::proofs::Ran::book_printed))]
pub fn print_book(bytes: &[u8], out: &mut [u8]) -> Printed
    ensures { BookPrinted bytes.now out.old (result, out.new) }
{
    book::replaying::replayed(bytes, out)
}
