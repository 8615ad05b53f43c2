// The calls' answers as they stand in a line: the number of the refusal, or 0, and then the values, 0 where there are none.
use crate::output::Out;
use model::{Containing, Refusal};
use std::io;

// An answer with its values.
pub(crate) fn put<const N: usize>(
    answer: Result<[u32; N], Refusal>,
    out: &mut Out,
) -> io::Result<()> {
    let (refusal, values) = match answer {
        Ok(values) => (0, values),
        Err(r) => (u32::from(r), [0; N]),
    };
    out.number(u64::from(refusal))?;
    out.words(&values)
}

// Where an event lies: 0 a run, which follows; 1 before the graph; 2 not yet known. No `From`: both types are of other crates.
pub(crate) fn side(answer: Containing) -> [u32; 2] {
    match answer {
        Containing::Run(r) => [0, r.0],
        Containing::Before => [1, 0],
        Containing::Unknown => [2, 0],
    }
}
