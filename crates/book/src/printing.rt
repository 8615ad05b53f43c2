// What `replay` prints, line by line, into a lent buffer: the whole lines that fit.
ghost use Rattle.std.specs.Prelude.{◌≡◌, not, ◌&&◌, ℕ, List, [], ◌++◌, ◌+◌, ◌<◌, ◌≤◌, length, take, drop, leb};
ghost use Rattle.model.specs.Refusals;
ghost use Rattle.model.specs.Print;
ghost use Rattle.model.specs.Print.{ascii, last_line, refused_line, push_refused_line, refusal_line};
ghost use Rattle.model.specs.Reader.{decoded};
ghost use Rattle.book.specs.Output;
ghost use Rattle.book.specs.Output.{max_line, step_bytes, word_lines, put_line, put_lines};
ghost use Rattle.book.specs.Writing.{unused, state, same_buffer};

use model::{BookRefusal, EventRunIndex, Refusal, WalkStep};
use std::marker::Model;

// How many bytes a line has room for: no line of 01's is longer.
const MAX_LINE: usize = 64;

// A number's digits, from place `at` on.
#[derive(Clone, Copy)]
struct Digits {
    bytes: [u8; 20],
    at: usize,
}

// The digit of a number below 10.
fn digit(n: u64) -> u8
    requires { n < 10 }
    ensures { result ≡ 48 + n }
{
    48 + n as u8
}

// A number in decimal, by a loop of its own, which counts nothing and goes on while a digit more is left: of what is printed nothing is taken
// from a crate of the kit, so that no statement of one is trusted.
fn decimal(n: u64) -> Digits
    ensures { (drop result.at result.bytes ≡ Print.decimal n) × (result.at < 20) }
{
    let mut bytes = [0; 20];
    let mut at = 20;
    let mut left = n;
    while 10 <= left {
        at -= 1;
        bytes[at] = digit(left % 10);
        left /= 10;
    }
    at -= 1;
    bytes[at] = digit(left);
    Digits { bytes, at }
}

// A line, of which `count` bytes are used.
#[derive(Drop)]
pub(crate) struct Line {
    bytes: [u8; MAX_LINE],
    count: usize,
}

// Clauses see the text.
impl Model for Line {
    ghost Value = { List ℕ };

    ghost view = { λ l. take l.count l.bytes };

    ghost invariant = { λ l. l.count ≤ 64 };
}

impl Line {
    // A line with no text yet.
    fn new() -> Self
        ensures { result ≡ [] }
    {
        Line {
            bytes: [0; MAX_LINE],
            count: 0,
        }
    }

    // The line with a text after it.
    fn text(mut self, s: &[u8]) -> Self
        requires { length self + length s.now ≤ max_line }
        ensures text { result ≡ self ++ s.now }
        ensures len { length result ≡ length self + length s.now }
    {
        let at = self.count;
        let end = at + s.len();
        self.bytes[at..end].copy_from_slice(s);
        self.count = end;
        self
    }

    // The line with a number after it, in decimal.
    fn number(self, n: u64) -> Self
        requires { length self + 20 ≤ max_line }
        ensures text { result ≡ self ++ Print.decimal n }
        ensures len { length result ≤ length self + 20 }
    {
        let digits = decimal(n);
        self.text(&digits.bytes[digits.at..])
    }
}

// A name and a number, as a line. The lines here are no `Display`: `write!` promises its text only where it answers `Ok`, and nowhere that it does.
#[tactic(auto, unfolding(model::specs::Print::ascii))]
fn one(name: &[u8], n: u64) -> Line
    requires { length name.now ≤ 8 }
    ensures { result ≡ name.now ++ Print.decimal n ++ ascii "\n" }
{
    Line::new().text(name).number(n).text(b"\n")
}

// A name and two runs, as a line.
#[tactic(auto, unfolding(model::specs::Print::ascii))]
fn two(name: &[u8], a: EventRunIndex, b: EventRunIndex) -> Line
    requires { length name.now ≤ 8 }
    ensures { result ≡ name.now ++ Print.decimal a.0 ++ ascii " " ++ Print.decimal b.0 ++ ascii "\n" }
{
    let first = Line::new().text(name).number(u64::from(a.0));
    first.text(b" ").number(u64::from(b.0)).text(b"\n")
}

// A step's line, by its three words; nothing where there is no such step.
#[tactic(auto, using(crate::proofs::Lining::step_lines), unfolding(model::specs::Print::ascii, crate::specs::Output::step_bytes))]
fn step_line(kind: u32, a: EventRunIndex, b: EventRunIndex) -> Line
    ensures { result ≡ step_bytes (decoded kind a.0 b.0) }
{
    match reader::step_of(kind, a, b) {
        Some(WalkStep::Retreat(a, b)) => two(b"retreat ", a, b),
        Some(WalkStep::Advance(a, b)) => two(b"advance ", a, b),
        Some(WalkStep::Apply(r)) => one(b"apply ", u64::from(r.0)),
        Some(WalkStep::Open(a, b)) => two(b"open ", a, b),
        None => Line::new(),
    }
}

// A refusal's line.
#[tactic(auto, unfolding(model::specs::Print::ascii, model::specs::Print::say, model::specs::Print::line_text, crate::specs::Output::ended))]
fn refused_line(r: Refusal) -> Line
    ensures { result ≡ Output.ended (refused_line (Refusals.number r)) }
{
    one(b"refused ", u64::from(u32::from(r)))
}

// The line of a push that was refused.
#[tactic(auto, unfolding(model::specs::Print::ascii, model::specs::Print::say, model::specs::Print::line_text, crate::specs::Output::ended))]
fn push_refused_line(r: Refusal, k: u32) -> Line
    ensures { result ≡ Output.ended (push_refused_line (Refusals.number r) k) }
{
    let told = Line::new()
        .text(b"refused ")
        .number(u64::from(u32::from(r)));
    told.text(b" push ").number(u64::from(k)).text(b"\n")
}

// The line of a book that is refused.
pub(crate) fn refusal_line(r: BookRefusal) -> Line
    ensures { result ≡ Output.ended (refusal_line r) }
{
    match r {
        BookRefusal::Refused(r) => refused_line(r),
        BookRefusal::PushRefused(r, k) => push_refused_line(r, k),
    }
}

// The line after a replay's steps.
#[tactic(auto, unfolding(model::specs::Print::ascii, model::specs::Print::say, model::specs::Print::line_text, model::specs::Print::last_line, crate::specs::Output::ended))]
pub(crate) fn last_line(outcome: Result<(), Refusal>, moved: u64) -> Line
    ensures { result ≡ Output.ended (last_line outcome moved) }
{
    match outcome {
        Ok(()) => one(b"moved ", moved),
        Err(r) => refused_line(r),
    }
}

// How many bytes of a lent buffer are used, and whether a line did not fit: a flag and no `Err`, since no
// refusal of 01 stands for it, and `used` is told either way.
#[derive(Clone, Copy)]
pub struct Printed {
    pub used: usize,
    pub short: bool,
}

// Lines put one after the other into a lent buffer. Each contract says `same_buffer`, of a call's begin and end: no invariant can hold it.
#[derive(Drop)]
pub(crate) struct Lines<'a> {
    out: &'a mut [u8],
    pub(crate) printed: Printed,
}

impl<'a> Lines<'a> {
    // No line yet.
    pub(crate) fn over(out: &'a mut [u8]) -> Lines<'a>
        ensures over { result.out.ghost_name ≡ out.entry.ghost_name }
        ensures begun { state result ≡ (unused, out.old) }
    {
        Lines {
            out,
            printed: Printed {
                used: 0,
                short: false,
            },
        }
    }

    // Whether `n` bytes more fit, and all before them did.
    fn fits(&self, n: usize) -> bool
        ensures { result ≡ (not self.now.printed.short && leb (self.now.printed.used + n) (length self.now.out.now)) }
    {
        let room = self.out.len();
        let printed = self.printed;
        !printed.short && n <= room && printed.used <= room - n
    }

    // Puts a line after the others, if it fits and all before it did.
    #[tactic(auto, unfolding(crate::specs::Output::put_line))]
    pub(crate) fn put(&mut self, line: &Line)
        ensures same_buffer { same_buffer self.new self.old }
        ensures written { state self.new ≡ put_line (state self.old) line.now }
    {
        let text = &line.bytes[..line.count];
        if !self.fits(text.len()) {
            self.printed.short = true;
            return;
        }
        let at = self.printed.used;
        let end = at + text.len();
        self.out[at..end].copy_from_slice(text);
        self.printed.used = end;
    }

    // Puts a line for each step of a list of words.
    pub(crate) fn put_steps(&mut self, steps: &[u32])
        ensures same_buffer { same_buffer self.new self.old }
        ensures written { state self.new ≡ put_lines (state self.old) (word_lines steps.now) }
    {
        for step in steps.chunks_exact(3) {
            let line = step_line(step[0], EventRunIndex(step[1]), EventRunIndex(step[2]));
            self.put(&line);
        }
    }
}
