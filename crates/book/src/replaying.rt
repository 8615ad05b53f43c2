// A whole book: read, replayed, and what `replay` prints of it written into a lent buffer.
ghost use Rattle.std.specs.Prelude.{◌≡◌, map};
ghost use Rattle.model.specs.Print.{replay_lines, printed};
ghost use Rattle.book.specs.Output.{ended, put_lines, printing, lines_of};
ghost use Rattle.book.specs.Turns.{read_of};
ghost use Rattle.book.specs.Writing.{state, same_buffer};

use crate::printing::{Lines, Printed};
use crate::reading::HeldRead;
use crate::{printing, reading};
use graph::held::HeldGraph;
use model::{LENT_ROWS, LENT_STEPS};

// How many bytes the lines of any book take at most.
pub const MAX_TEXT: usize = 131072;

// Puts the lines of a replay: its steps, and the last one.
fn put_replay(g: &HeldGraph, out: &mut Lines)
    ensures same_buffer { same_buffer out.new out.old }
    ensures written { state out.new ≡ put_lines (state out.old) (map ended (replay_lines g.now.graph)) }
{
    let mut rows = [0; LENT_ROWS];
    let mut steps = [0; 3 * LENT_STEPS];
    let walked = walk::replaying::replay_held(g, &mut rows, &mut steps);
    let words = 3 * walked.count as usize;
    out.put_steps(&steps[..words]);
    out.put(&printing::last_line(walked.outcome, walked.moved));
}

// Puts the lines of a book that was read.
#[tactic(auto, using(crate::proofs::Whole::put_whole))]
fn put_book(read: HeldRead, out: &mut Lines)
    ensures same_buffer { same_buffer out.new out.old }
    ensures written { state out.new ≡ put_lines (state out.old) (map ended (lines_of (read_of read))) }
{
    match read.answer {
        Ok(()) => put_replay(&read.held, out),
        Err(refusal) => out.put(&printing::refusal_line(refusal)),
    }
}

// Replays a book: writes the lines that `replay` prints of it, the whole ones that fit.
#[tactic(auto, using(crate::proofs::Whole::printed_is))]
pub fn replayed(bytes: &[u8], out: &mut [u8]) -> Printed
    ensures { (result, out.new) ≡ printing (printed bytes.now) out.old }
{
    let mut lines = Lines::over(out);
    put_book(reading::read_held(bytes), &mut lines);
    lines.printed
}
