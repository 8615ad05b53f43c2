// Rows of words that lie one after another in a list: lent, and seen as a list of rows.
ghost use Rattle.std.specs.Prelude.{◌≡◌, List, ℕ, ◌<◌, ◌≤◌, ◌^◌, length, get_or};
ghost use Rattle.lists.specs.Lists.{concat};
ghost use Rattle.model.specs.Limits.{max_runs};
ghost use Rattle.model.specs.History.{at};
ghost use Rattle.tables.specs.Jagged.{rows_in, Lies};

use crate::words::item;
use std::marker::Model;

// Starts are numbers of 32 bits: by that the items are fewer than 2 ^ 32.
fn starts_fit(starts: &[u32])
    ensures { (r : ℕ) → get_or starts.now r 0 < 2 ^ 32 }
{}

// Where each of `rows` rows starts, where the last ends, and the items.
// That each row is below its number, and how many items there are, is asked where it is needed: rows of parents are so, rows of other numbers not.
#[derive(Drop)]
pub struct Jagged<'a> {
    starts: &'a [u32],
    items: &'a [u32],
    rows: usize,
}

impl<'a> Model for Jagged<'a> {
    ghost Value = { List (List ℕ) };

    ghost view = { λ j. rows_in j.starts.now j.items.now j.rows };

    ghost invariant = { λ j. Lies j.starts.now j.items.now j.rows };
}

impl<'a> Jagged<'a> {
    pub fn new(starts: &'a [u32], items: &'a [u32], rows: usize) -> Self
        requires { Lies starts.now items.now rows }
        ensures { result ≡ rows_in starts.now items.now rows }
    {
        Jagged {
            starts,
            items,
            rows,
        }
    }

    // How many rows there are.
    pub fn len(&self) -> usize
        ensures value { result ≡ length self.now }
        ensures few { result ≤ max_runs }
        ensures words { length (concat self.now) < 2 ^ 32 }
    {
        starts_fit(self.starts);
        self.rows
    }

    // Row r's items.
    pub fn row(&self, r: usize) -> &'a [u32]
        requires { r < length self.now }
        ensures { result.now ≡ at self.now r }
    {
        let s = item(self.starts, r, 0) as usize;
        let e = item(self.starts, r + 1, 0) as usize;
        &self.items[s..e]
    }
}
