//! The rows of all sets, filled in place.
ghost use Rattle.std.specs.Prelude.{◌≡◌, ℕ, ◌+◌, ◌*◌, ◌<◌, ◌≤◌, All, IfOk, length};
ghost use Rattle.planner.specs.Cells as row_cells;
ghost use Rattle.planner.specs.Cuts as set_cuts;
ghost use Rattle.planner.specs.Rows.{width, sets_of, AreRows, IsTable};

use crate::cell::{Cell, blank};
use crate::row::{plan_row, width_of};
use crate::ways::Ways;
use plan_model::Offers;
use std::alloc::{AllocError, Global};

/// A row of no plans.
pub(crate) fn blank_row(alloc: Global, width: usize) -> Result<Vec<Cell>, AllocError>
    ensures count { IfOk result (λ row. length row.items ≡ width) }
    ensures blank { IfOk result (λ row. All (λ cell. cell ≡ row_cells.blank) row.items) }
{
    Ok(vec![in alloc; blank(); width]?)
}

/// So many such rows.
pub(crate) fn blank_rows(alloc: Global, row: &[Cell], sets: usize) -> Result<Vec<Cell>, AllocError>
    requires { All (λ cell. cell ≡ row_cells.blank) row.now }
    ensures count { IfOk result (λ cells. length cells.items ≡ sets * length row.now) }
    ensures blank { IfOk result (λ cells. All (λ cell. cell ≡ row_cells.blank) cells.items) }
{
    let mut cells = Vec::with_capacity(alloc, sets.saturating_mul(row.len()))?;
    for _set in 0..sets {
        cells.extend_from_slice(row)?;
    }
    Ok(cells)
}

/// Writes a row over that of a set.
fn put_row(cells: &mut [Cell], row: &[Cell], width: usize, set: usize)
    requires fits { set * width + width ≤ length cells.old }
    requires row_each { length row.now ≡ width }
    ensures here { row_cells.row_of width cells.new set ≡ row.now }
    ensures others { (s : ℕ) → ¬ (s ≡ set) → row_cells.row_of width cells.new s ≡ row_cells.row_of width cells.old s }
{
    let from = set * width;
    cells[from..from + width].copy_from_slice(row);
}

/// Whether plans can cover a set.
fn is_covered(ways: &Ways, set: usize) -> bool
    requires { set < sets_of ways.now }
    ensures { result ≡ set_cuts.is_covered ways.now.covered.items set }
{
    ways.covered.as_slice()[set]
}

/// Fills the row of a set, unless no plan covers it.
fn fill_set<O: Offers>(cells: &mut [Cell], row: &mut [Cell], ways: &Ways, offers: &O, set: usize)
    requires row_each { length row.old ≡ width ways.now }
    requires table { IsTable ways.now cells.old }
    requires set_in { set < sets_of ways.now }
    requires done { AreRows ways.now (O.table offers.now) (row_cells.row_of (width ways.now) cells.old) set }
    ensures table { IsTable ways.now cells.new }
    ensures done { AreRows ways.now (O.table offers.now) (row_cells.row_of (width ways.now) cells.new) (set + 1) }
{
    if !is_covered(ways, set) {
        return;
    }
    plan_row(row, cells, ways, offers, set);
    put_row(cells, row, width_of(ways), set);
}

/// Fills the rows of all sets from a number on; those below it are filled.
pub(crate) fn fill<O: Offers>(
    cells: &mut [Cell],
    row: &mut [Cell],
    ways: &Ways,
    offers: &O,
    from: usize,
)
    requires row_each { length row.old ≡ width ways.now }
    requires table { IsTable ways.now cells.old }
    requires from_in { from ≤ sets_of ways.now }
    requires done { AreRows ways.now (O.table offers.now) (row_cells.row_of (width ways.now) cells.old) from }
    ensures table { IsTable ways.now cells.new }
    ensures done { AreRows ways.now (O.table offers.now) (row_cells.row_of (width ways.now) cells.new) (sets_of ways.now) }
{
    for set in from..ways.task.rows.len() {
        fill_set(cells, row, ways, offers, set);
    }
}
