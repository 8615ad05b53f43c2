#![tactic(auto)]

// The book of 01, "The book and its program": its bytes to a graph, and what `replay` prints of it, into a lent buffer.
mod printing;
pub mod reading;
pub mod replaying;
mod words;

pub use printing::Printed;
