// Chains and rows of a range: each run's row is made of its parents' rows, lent as parts of the row area.
ghost use Rattle.std.specs.Prelude.{◌≡◌, ◌+◌, ◌<◌, ◌≤◌, ◌^◌, max, length, get_or, eqb, MatchOption, replicate};
ghost use Rattle.std.specs.List.{position, zip};
ghost use Rattle.model.specs.Limits.{max_runs, max_starts};
ghost use Rattle.tables.specs.Jagged.{rows_in, Lies, Below};
ghost use Rattle.tables.specs.Lay.{join_of, join_parent, join_all, spot_from, Fine, FineAll, Safe, place_in, lay_of};
ghost use Rattle.tables.specs.Laid.{chains_of, LaidOut};

use crate::jagged::Jagged;
use crate::words::item;
use model::MAX_STARTS;

// Where each run's row starts and the last ends, each run's chain, its place along it, and each chain's length.
// An array for each, not one of structs: the chains' lengths are compared with a row as a list, and clauses say of chains and of places as lists
// what pairs would be taken apart for.
#[derive(Drop)]
pub struct ChainTables {
    pub row_starts: [u32; MAX_STARTS],
    pub chains: [u32; MAX_STARTS],
    pub places: [u32; MAX_STARTS],
    pub lens: [u32; MAX_STARTS],
}

// Elementwise the larger of the two, in the row being made.
pub fn join(row: &mut [u32], theirs: &[u32])
    requires { length theirs.now ≤ length row.old }
    ensures { row.new ≡ join_of row.old theirs.now }
{
    for (i, x) in theirs.iter().enumerate() {
        row[i] = row[i].max(*x);
    }
}

// The rows so far: their words, where each run's row starts, each run's chain and its place along it.
#[derive(Clone, Copy)]
struct Rows<'a> {
    words: &'a [u32],
    starts: &'a [u32],
    chain: &'a [u32],
    place: &'a [u32],
}

impl<'a> Rows<'a> {
    // A parent's row, and the parent itself, joined into the row being made.
    fn join_parent(self, row: &mut [u32], p: usize)
        requires { Fine (length row.old) self.words.now self.starts.now self.chain.now self.place.now p }
        ensures { row.new ≡ join_parent self.entry.words.now self.entry.starts.now self.entry.chain.now self.entry.place.now row.old p }
    {
        let s = item(self.starts, p, 0) as usize;
        let e = item(self.starts, p + 1, 0) as usize;
        join(row, &self.words[s..e]);
        let k = item(self.chain, p, 0) as usize;
        row[k] = row[k].max(item(self.place, p, 0) + 1);
    }

    // All parents.
    fn join_all(self, row: &mut [u32], parents: &[u32])
        requires { FineAll (length row.old) self.words.now self.starts.now self.chain.now self.place.now parents.now }
        ensures { row.new ≡ join_all self.entry.words.now self.entry.starts.now self.entry.chain.now self.entry.place.now row.old parents.now }
    {
        for p in parents {
            self.join_parent(row, *p as usize);
        }
    }
}

// The first chain of which the row has all.
fn find_spot(row: &[u32], lens: &[u32]) -> Option<usize>
    ensures { result ≡ position (λ p. eqb p.0 p.1) (zip row.now lens.now) }
{
    row.iter()
        .zip(lens)
        .position(|(reached, len)| *reached == *len)
}

// The chain that a run joins, by its row: that one, or else a new one.
fn pick_chain(row: &[u32], lens: &[u32]) -> usize
    requires { length row.now ≡ length lens.now }
    ensures spot { result ≡ spot_from row.now lens.now 0 (length lens.now) }
    ensures upper_bound { result ≤ length lens.now }
{
    find_spot(row, lens).unwrap_or(lens.len())
}

// How many chains there are, and how much of the row area is used.
#[derive(Clone, Copy)]
pub struct Area {
    pub chains: usize,
    pub used: usize,
}

impl ChainTables {
    // Nothing is laid.
    pub fn new() -> ChainTables
        ensures { result ≡ record { row_starts = replicate max_starts 0; chains = replicate max_starts 0; places = replicate max_starts 0; lens = replicate max_starts 0 } }
    {
        ChainTables {
            row_starts: [0; MAX_STARTS],
            chains: [0; MAX_STARTS],
            places: [0; MAX_STARTS],
            lens: [0; MAX_STARTS],
        }
    }

    // The rows of n runs, in the row area.
    pub fn rows<'a>(&'a self, area: &'a [u32], n: usize) -> Jagged<'a>
        requires { Lies self.now.row_starts area.now n }
        ensures { result ≡ rows_in self.now.row_starts area.now n }
    {
        Jagged::new(&self.row_starts, area, n)
    }
}

// Run r put on chain k, its row ending at `used`.
fn place(
    row_starts: &mut [u32],
    chains: &mut [u32],
    places: &mut [u32],
    lens: &mut [u32],
    r: usize,
    k: usize,
    used: usize,
)
    requires room { (r + 1 < length row_starts.old) × (r < length chains.old) × (r < length places.old) × (k < length lens.old) }
    requires small { (r < max_runs) × (k < max_starts) × (used < 2 ^ 32) × (get_or lens.old k 0 ≤ max_runs) }
    ensures { place_in (record { row_starts = row_starts.old; chains = chains.old; places = places.old; lens = lens.old }) r k used
        ≡ record { row_starts = row_starts.new; chains = chains.new; places = places.new; lens = lens.new } }
{
    let len = lens[k];
    row_starts[r + 1] = used as u32;
    chains[r] = k as u32;
    places[r] = len;
    lens[k] = len + 1;
}

// Run r's row, made of its parents', and written; none where it finds no room.
fn lay_run(
    rows: &mut [u32],
    row_starts: &mut [u32],
    chains: &mut [u32],
    places: &mut [u32],
    lens: &mut [u32],
    row: &mut [u32],
    area: Area,
    r: usize,
    parents: &[u32],
) -> Option<Area>
    requires safe { Safe (length row.old) rows.old
        (chains_of area (length row.old) (record { row_starts = row_starts.old; chains = chains.old; places = places.old; lens = lens.old })) r parents.now }
    requires long { (length row.old ≤ length row_starts.old) × (length row.old ≤ length chains.old) × (length row.old ≤ length places.old) × (length row.old ≤ length lens.old) }
    ensures { let laid = lay_of (chains_of area (length row.old) (record { row_starts = row_starts.old; chains = chains.old; places = places.old; lens = lens.old }), rows.old) r parents.now in
        MatchOption result ((laid ≡ None) × (rows.new ≡ rows.old))
        (λ a. laid ≡ Some (chains_of a (length row.old) (record { row_starts = row_starts.new; chains = chains.new; places = places.new; lens = lens.new }), rows.new)) }
{
    let w = row.len();
    let laid = Rows {
        words: rows,
        starts: &row_starts[..w],
        chain: &chains[..w],
        place: &places[..w],
    };
    row.fill(0);
    laid.join_all(row, parents);
    let n = area.chains;
    let k = pick_chain(&row[..n], &lens[..n]);
    let width = n.max(k + 1);
    let used = area.used;
    if rows.len() < used + width {
        return None;
    }
    rows[used..used + width].copy_from_slice(&row[..width]);
    place(row_starts, chains, places, lens, r, k, used + width);
    Some(Area {
        chains: width,
        used: used + width,
    })
}

// All runs' rows, where each starts and the last ends, each run's chain, its place along it, and each chain's length; none where a row finds no room,
// and then the rows before it are written. A row is made in `row`.
pub fn lay(
    rows: &mut [u32],
    row_starts: &mut [u32],
    chains: &mut [u32],
    places: &mut [u32],
    lens: &mut [u32],
    row: &mut [u32],
    parents: &Jagged,
) -> Option<Area>
    requires below { Below parents.now }
    requires row { length row.old ≡ length parents.now + 1 }
    requires long { (length row.old ≤ length row_starts.old) × (length row.old ≤ length chains.old) × (length row.old ≤ length places.old) × (length row.old ≤ length lens.old) }
    ensures { LaidOut parents.now (length parents.now) rows.old result rows.new
        (record { row_starts = row_starts.new; chains = chains.new; places = places.new; lens = lens.new }) }
{
    let n = parents.len();
    row_starts[0] = 0;
    lens[..n + 1].fill(0);
    let mut area = Area { chains: 0, used: 0 };
    for r in 0..n {
        area = lay_run(
            rows,
            row_starts,
            chains,
            places,
            lens,
            row,
            area,
            r,
            parents.row(r),
        )?;
    }
    Some(area)
}
