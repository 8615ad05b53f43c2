// A range's tables, made of each other: parents, chains and rows; and children.
ghost use Rattle.std.specs.Prelude.{◌-◌, ◌<◌, ◌≤◌, ◌^◌, length};
ghost use Rattle.lists.specs.Lists.{concat};
ghost use Rattle.tables.specs.Jagged.{Below};
ghost use Rattle.tables.specs.Laid.{shares_of, RangeLaid};
ghost use Rattle.tables.specs.Counted.{KidsTabled};

use crate::jagged::Jagged;
use crate::rows::Area;
use crate::{children, groups, rows};

// Parents, chains and rows of the runs from run a on, by all runs' parents; none where a row finds no room.
// `starts` and `items` hold the parents, the next four lists what `rows::lay` says, and `scratch` a row that is made.
pub fn lay(
    all: &Jagged,
    a: u32,
    area: &mut [u32],
    starts: &mut [u32],
    items: &mut [u32],
    row_starts: &mut [u32],
    chains: &mut [u32],
    places: &mut [u32],
    lens: &mut [u32],
    scratch: &mut [u32],
) -> Option<Area>
    requires from { a ≤ length all.now }
    requires below { Below all.now }
    requires groups { (length all.now - a < length starts.old) × (length (concat all.now) ≤ length items.old) }
    requires tables { let n = length all.now - a in
        (n < length row_starts.old) × (n < length chains.old) × (n < length places.old) × (n < length lens.old) }
    requires scratch { length all.now - a < length scratch.old }
    ensures { let n = length all.now - a in
        RangeLaid (shares_of all.now a n) n area.old result area.new (record { starts = starts.new; items = items.new })
        (record { row_starts = row_starts.new; chains = chains.new; places = places.new; lens = lens.new }) }
{
    groups::gather(starts, items, all, a);
    let n = all.len() - a as usize;
    let own = Jagged::new(starts, items, n);
    rows::lay(
        area,
        row_starts,
        chains,
        places,
        lens,
        &mut scratch[..n + 1],
        &own,
    )
}

// Each run's children, by the runs' parents: where each one's begin, and the children.
pub fn children(parents: &Jagged, starts: &mut [u32], items: &mut [u32], scratch: &mut [u32])
    requires below { Below parents.now }
    requires starts { length parents.now < length starts.old }
    requires scratch { length parents.now < length scratch.old }
    requires room { length (concat parents.now) ≤ length items.old }
    requires few { length items.old ≤ 2 ^ 20 }
    ensures { KidsTabled parents.now (length parents.now) starts.new items.new }
{
    let w = parents.len() + 1;
    children::starts_of(&mut starts[..w], parents);
    scratch[..w].copy_from_slice(&starts[..w]);
    children::children_of(items, &mut scratch[..w], parents);
}
