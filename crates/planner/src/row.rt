//! The row of a set of slots, made from those of smaller sets.
ghost use Rattle.std.specs.Prelude.{◌≡◌, ℕ, ◌+◌, ◌*◌, ◌<◌, ◌≤◌, length};
ghost use Rattle.std.specs.List.{list_all};
ghost use Rattle.plan_model.specs.Plans.{is_column_of};
ghost use Rattle.plan_model.specs.Costs.{rows_in, sort_cost};
ghost use Rattle.planner.specs.declared.cell.TheConstants as constant;
ghost use Rattle.planner.specs.Fronts as order_fronts;
ghost use Rattle.planner.specs.Cells as row_cells;
ghost use Rattle.planner.specs.inner.Steps as steps;
ghost use Rattle.planner.specs.Cuts.{cut_at};
ghost use Rattle.planner.specs.Rows as set_rows;

use crate::cell::{Cell, blank, cost_of, finished};
use crate::cuts::{Cut, Merge};
use crate::front::{Front, can_sort};
use crate::join::{hash_row, merge_rows};
use crate::read::read_row;
use crate::ways::Ways;
use plan_model::{Offers, Task, rows_of, sort_price};

/// The row of a set in a table of so many rows.
pub(crate) fn row_at(cells: &[Cell], width: usize, sets: usize, set: usize) -> &[Cell]
    requires whole { length cells.now ≡ sets * width }
    requires set_in { set < sets }
    ensures row { result.now ≡ row_cells.row_of width cells.now set }
    ensures width { length result.now ≡ width }
{
    let from = set * width;
    &cells[from..from + width]
}

/// How many cells a row has.
pub(crate) fn width_of(ways: &Ways) -> usize
    ensures { result ≡ set_rows.width ways.now }
{
    ways.fronts.len()
}

/// The row of a set in the table of all sets.
pub(crate) fn row_in<'a>(ways: &Ways, cells: &'a [Cell], set: usize) -> &'a [Cell]
    requires whole { length cells.now ≡ set_rows.sets_of ways.now * set_rows.width ways.now }
    requires set_in { set < set_rows.sets_of ways.now }
    ensures row { result.now ≡ row_cells.row_of (set_rows.width ways.now) cells.now set }
    ensures width { length result.now ≡ set_rows.width ways.now }
{
    row_at(cells, width_of(ways), ways.task.rows.len(), set)
}

/// The cuts of a set.
pub fn cuts_at<'a>(ways: &'a Ways, set: usize) -> &'a [Cut]
    requires { set < set_rows.sets_of ways.now }
    ensures { result.now ≡ set_rows.cuts_of ways.now set }
{
    &ways.cuts.as_slice()[ways.starts[set]..ways.starts[set + 1]]
}

/// The merges of a set's cut.
pub fn merges_at<'a>(ways: &'a Ways, cut: &Cut) -> &'a [Merge]
    requires from { cut.now.from ≤ cut.now.to }
    requires to { cut.now.to ≤ length ways.now.merges.items }
    ensures { result.now ≡ set_rows.merges_in ways.now cut.now }
{
    &ways.merges.as_slice()[cut.from..cut.to]
}

/// Offers each cell of a set's row the joins of a cut's parts.
fn join_cut(row: &mut [Cell], cells: &[Cell], ways: &Ways, set: usize, k: usize, cut: &Cut)
    requires row_each { length row.old ≡ set_rows.width ways.now }
    requires whole { length cells.now ≡ set_rows.sets_of ways.now * set_rows.width ways.now }
    requires done { (s : ℕ) → s < set → set_rows.IsCapped (row_cells.row_of (set_rows.width ways.now) cells.now s) }
    requires set_in { set < set_rows.sets_of ways.now }
    requires number { k < length (set_rows.cuts_of ways.now set) }
    requires cut_is { cut.now ≡ cut_at (set_rows.cuts_of ways.now set) k }
    ensures step { steps.IsStep (set_rows.width ways.now) (set_rows.IsCutBy ways.now (row_cells.row_of (set_rows.width ways.now) cells.now) cut.now) row.old row.new }
    ensures bounds { (f : ℕ) → f < set_rows.width ways.now → set_rows.CutBound ways.now (row_cells.row_of (set_rows.width ways.now) cells.now) cut.now f (row_cells.cost_at row.new f) }
{
    let left = row_in(ways, cells, cut.left);
    let right = row_in(ways, cells, cut.right);
    let heads = ways.heads.as_slice();
    let cost = cost_of(left, 0) + cost_of(right, 0) + cut.hash_price;
    hash_row(row, heads, cost);
    merge_rows(
        row,
        heads,
        left,
        right,
        cut.merge_price,
        merges_at(ways, cut),
    );
}

/// Offers each cell of a set's row all joins of its parts.
fn join_row(row: &mut [Cell], cells: &[Cell], ways: &Ways, set: usize)
    requires row_each { length row.old ≡ set_rows.width ways.now }
    requires whole { length cells.now ≡ set_rows.sets_of ways.now * set_rows.width ways.now }
    requires done { (s : ℕ) → s < set → set_rows.IsCapped (row_cells.row_of (set_rows.width ways.now) cells.now s) }
    requires set_in { set < set_rows.sets_of ways.now }
    ensures step { steps.IsStep (set_rows.width ways.now) (set_rows.IsJoined ways.now (row_cells.row_of (set_rows.width ways.now) cells.now) (set_rows.cuts_of ways.now set)) row.old row.new }
    ensures bounds { (k : ℕ) → k < length (set_rows.cuts_of ways.now set) → (f : ℕ) → f < set_rows.width ways.now → set_rows.CutBound ways.now (row_cells.row_of (set_rows.width ways.now) cells.now) (cut_at (set_rows.cuts_of ways.now set) k) f (row_cells.cost_at row.new f) }
{
    let cuts = cuts_at(ways, set);
    for k in 0..cuts.len() {
        join_cut(row, cells, ways, set, k, &cuts[k]);
    }
}

/// Makes all cells of a row blank.
fn clear_row(row: &mut [Cell])
    ensures { (f : ℕ) → row_cells.cell_at row.new f ≡ row_cells.blank }
{
    for cell in row.iter_mut() {
        *cell = blank();
    }
}

/// Tells each cell of a set's row what a sort of the set costs.
fn finish_row(row: &mut [Cell], task: &Task, fronts: &[Front], set: usize)
    requires row_each { length row.old ≡ length fronts.now }
    requires some { 0 < length fronts.now }
    requires set_in { set < length task.now.rows }
    requires capped { row_cells.cost_at row.old 0 ≤ constant.IMPOSSIBLE }
    ensures { (f : ℕ) → f < length fronts.now → row_cells.cell_at row.new f ≡ steps.finished (row_cells.cell_at row.old f) (list_all (is_column_of set) (order_fronts.asked (order_fronts.listed task.now) fronts.now f)) (row_cells.cost_at row.old 0 + sort_cost task.now.rates (rows_in task.now set)) }
{
    let list = task.wanted_list();
    let sorted = cost_of(row, 0) + sort_price(task, rows_of(task, set));
    for f in 0..fronts.len() {
        let sorts = can_sort(set, fronts[f], list);
        row[f] = finished(row[f], sorts, sorted);
    }
}

/// Makes the row of a set, from those of smaller sets.
pub(crate) fn plan_row<O: Offers>(
    row: &mut [Cell],
    cells: &[Cell],
    ways: &Ways,
    offers: &O,
    set: usize,
)
    requires row_each { length row.old ≡ set_rows.width ways.now }
    requires whole { length cells.now ≡ set_rows.sets_of ways.now * set_rows.width ways.now }
    requires set_in { set < set_rows.sets_of ways.now }
    requires done { set_rows.AreRows ways.now (O.table offers.now) (row_cells.row_of (set_rows.width ways.now) cells.now) set }
    ensures { set_rows.IsRow ways.now (O.table offers.now) (row_cells.row_of (set_rows.width ways.now) cells.now) set row.new }
{
    let fronts = ways.fronts.as_slice();
    clear_row(row);
    read_row(row, ways.task, offers, fronts, set);
    join_row(row, cells, ways, set);
    finish_row(row, ways.task, fronts, set);
}
