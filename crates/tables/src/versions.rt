// Versions as how far along each chain they reach: an array with room for any number of chains, of which the first are meant. Their number goes
// beside it: of a slice of them a caller would have to say again of its array what was said of the slice.
ghost use Rattle.std.specs.Prelude.{◌+◌, ◌≤◌, ◌<◌, length, get_or};
ghost use Rattle.model.specs.Limits.{max_runs};
ghost use Rattle.tables.specs.Reached.{started, arrived, Holds, Standing};

use crate::words::item;

// The version that holds the first `known` runs.
pub fn start_version(current: &mut [u32], chain: &[u32], place: &[u32], chains: usize, known: usize)
    requires { (chains ≤ length current.old) × Standing chain.now place.now chains known }
    ensures { Holds (started chain.now place.now known) chains current.new }
{
    current[..chains].fill(0);
    for r in 0..known {
        let k = item(chain, r, 0) as usize;
        current[k] = item(place, r, 0) + 1;
    }
}

// The first n words become the row's, and 0 past its end.
fn copy_row(current: &mut [u32], row: &[u32], n: usize)
    requires { n ≤ length current.old }
    ensures { Holds (λ c. get_or row.now c 0) n current.new }
{
    let m = row.len().min(n);
    current[..n].fill(0);
    current[..m].copy_from_slice(&row[..m]);
}

// The version after a visit: the run's history, by its row, and the run, by its chain and place.
pub fn arrive(current: &mut [u32], row: &[u32], n: usize, chain: usize, place: u32)
    requires { (n ≤ length current.old) × (chain < n) × (place < max_runs) }
    ensures { Holds (arrived row.now chain place) n current.new }
{
    copy_row(current, row, n);
    current[chain] = place + 1;
}
