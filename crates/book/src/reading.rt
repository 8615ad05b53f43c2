// A book's bytes to a graph.
ghost use Rattle.std.specs.Prelude.{◌≡◌, MatchOption, Err};
ghost use Rattle.std.proofs.Math.Option.{none, some};
ghost use Rattle.model.specs.Book.{book_read, read_pushes, read_header, book_of};
ghost use Rattle.model.specs.BookCalls.{header};
ghost use Rattle.model.specs.Fresh.{new_of};
ghost use Rattle.book.specs.Turns.{Turned, read_of};

use crate::words;
use crate::words::Words;
use graph::held::HeldGraph;
use model::{BookRead, BookRefusal, EventIndex, MAX_BOOK, Refusal};

// How many whole words a book can have.
const MAX_WORDS: usize = MAX_BOOK / 4;

// The header, and what is left of the book after it.
#[derive(Clone, Copy)]
struct Header<'a> {
    first: EventIndex,
    frontier: &'a [u32],
    pushes: u32,
    left: Words<'a>,
}

impl<'a> Header<'a> {
    // The header that a book begins with; none where it is cut short.
    #[tactic(auto, using(crate::proofs::Taking::header_parts))]
    fn take(book: Words<'a>) -> Option<Header<'a>>
        ensures { MatchOption result (header book.entry.bytes.now ≡ none)
            (λ h. header book.entry.bytes.now ≡ some (h.first.0, h.frontier.now, h.pushes, h.left.bytes.now)) }
    {
        let (first, left) = book.next()?;
        let (frontier, left) = left.take_counted()?;
        let (pushes, left) = left.next()?;
        Some(Header {
            first: EventIndex(first),
            frontier,
            pushes,
            left,
        })
    }
}

// What a book answers, with the graph made till then, which is known not to be broken.
#[derive(Clone, Copy)]
pub(crate) struct HeldRead {
    pub(crate) held: HeldGraph,
    pub(crate) answer: Result<(), BookRefusal>,
}

// The answer, and the graph.
fn answered(held: HeldGraph, answer: Result<(), BookRefusal>) -> HeldRead
    ensures { result ≡ record { held = held; answer = answer } }
{
    HeldRead { held, answer }
}

// Refused, with no event read.
#[tactic(auto, unfolding(model::specs::Book::book_read))]
fn refused(r: Refusal) -> HeldRead
    ensures { read_of result ≡ book_read new_of (Err (BookRefusal.Refused r)) }
{
    answered(fresh(), Err(BookRefusal::Refused(r)))
}

// A graph of no events.
fn fresh() -> HeldGraph
    ensures { result.graph ≡ new_of }
{
    HeldGraph::known(graph::fresh::new())
}

// Takes push `k`: read whole, and then tried on a graph that is not tested again. What is left of the book after it.
fn take_push<'a>(g: &mut HeldGraph, book: Words<'a>, k: u32) -> Result<Words<'a>, BookRefusal>
    ensures { Turned g.old.graph book.entry.bytes.now k g.new.graph result }
{
    let Some((len, left)) = book.next() else {
        return Err(BookRefusal::Refused(Refusal::BookTooShort));
    };
    let Some((parents, left)) = left.take_counted() else {
        return Err(BookRefusal::Refused(Refusal::BookTooShort));
    };
    match graph::pushing::push_held(g, parents, len) {
        Ok(_) => Ok(left),
        Err(r) => Err(BookRefusal::PushRefused(r, k)),
    }
}

// The pushes are in: nothing may be left.
#[tactic(auto, using(crate::proofs::Taking::none_over, crate::proofs::Taking::some_over), unfolding(model::specs::Book::book_read))]
fn finish(g: HeldGraph, left: Words) -> HeldRead
    ensures { read_of result ≡ read_pushes 0 0 g.graph left.entry.bytes.now }
{
    if left.bytes.is_empty() {
        return answered(g, Ok(()));
    }
    answered(g, Err(BookRefusal::Refused(Refusal::BookTooLong)))
}

// Takes `count` pushes.
fn pushes(begun: HeldGraph, book: Words, count: u32) -> HeldRead
    ensures { read_of result ≡ read_pushes count 0 begun.graph book.entry.bytes.now }
{
    let mut g = begun;
    let mut left = book;
    for k in 0..count {
        match take_push(&mut g, left, k) {
            Ok(next) => left = next,
            Err(r) => return answered(g, Err(r)),
        }
    }
    finish(g, left)
}

// Takes a book that is neither empty nor too long: its header, read whole and then tried, and the pushes.
fn read_words(book: Words) -> HeldRead
    ensures { read_of result ≡ read_header book.entry.bytes.now }
{
    let Some(header) = Header::take(book) else {
        return refused(Refusal::BookTooShort);
    };
    let made = graph::fresh::after(header.first, header.frontier);
    let held = HeldGraph::known(made.graph);
    match made.answer {
        Ok(()) => pushes(held, header.left, header.pushes),
        Err(r) => answered(held, Err(BookRefusal::Refused(r))),
    }
}

// `read`, with the graph as one that is known not to be broken.
pub(crate) fn read_held(bytes: &[u8]) -> HeldRead
    ensures { read_of result ≡ book_of bytes.now }
{
    if bytes.is_empty() {
        return answered(fresh(), Ok(()));
    }
    if MAX_BOOK < bytes.len() {
        return refused(Refusal::BookTooLong);
    }
    let count = bytes.len() / 4;
    let mut words = [0; MAX_WORDS];
    words::decode(bytes, &mut words[..count]);
    read_words(Words {
        bytes,
        words: &words[..count],
    })
}

// Reads a book. The graph is what was made up to the first refusal; a book of no bytes is a new graph.
pub fn read(bytes: &[u8]) -> BookRead
    ensures { result ≡ book_of bytes.now }
{
    let read = read_held(bytes);
    BookRead {
        graph: read.held.graph,
        answer: read.answer,
    }
}
