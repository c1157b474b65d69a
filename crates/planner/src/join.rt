//! Joins that are offered to the cells of one row.
ghost use Rattle.std.specs.Prelude.{◌≡◌, ℕ, ◌+◌, ◌<◌, ◌≤◌, length, None, slice_index_or};
ghost use Rattle.planner.specs.Fronts.{longer_front, AreHeadsApart};
ghost use Rattle.planner.specs.Cells.{cell_at, cost_at};
ghost use Rattle.planner.specs.inner.Steps as steps;
ghost use Rattle.planner.specs.Cuts.{merge_at};
ghost use Rattle.planner.specs.Choices.{IsMerged, MergesBound};
ghost use Rattle.planner.specs.Rows.{IsCapped};

use crate::cell::{Cell, any_of, hashed, merged};
use crate::cuts::Merge;
use crate::front::longer;
use adv_base::Item;

/// Offers one cell of a row a merge whose left side serves the front `need`; `base` is its cost without that side.
#[inline]
fn merge_cell(
    row: &mut [Cell],
    heads: &[Option<Item>],
    left: &[Cell],
    need: usize,
    base: u128,
    f: usize,
)
    requires front_in { f < length row.old }
    requires heads_each { length heads.now ≡ length row.old }
    requires left_each { length left.now ≡ length row.old }
    requires need_in { need < length row.old }
    requires capped { IsCapped left.now }
    requires base_most { base ≤ 2000000000000000000000000000000 }
    ensures here { cell_at row.new f ≡ steps.merged (cell_at row.old f) (longer_front (slice_index_or heads.now need None) (slice_index_or heads.now f None) need f) left.now base }
    ensures others { (k : ℕ) → ¬ (k ≡ f) → cell_at row.new k ≡ cell_at row.old k }
{
    let front = longer(heads[need], heads[f], need, f);
    row[f] = merged(row[f], front, left, base);
}

/// Offers each cell of a row a merge, one after the other.
fn merge_each(row: &mut [Cell], heads: &[Option<Item>], left: &[Cell], need: usize, base: u128)
    requires heads_each { length heads.now ≡ length row.old }
    requires left_each { length left.now ≡ length row.old }
    requires need_in { need < length row.old }
    requires capped { IsCapped left.now }
    requires base_most { base ≤ 2000000000000000000000000000000 }
    ensures { (f : ℕ) → f < length row.old → cell_at row.new f ≡ steps.merged (cell_at row.old f) (longer_front (slice_index_or heads.now need None) (slice_index_or heads.now f None) need f) left.now base }
{
    for f in 0..row.len() {
        merge_cell(row, heads, left, need, base, f);
    }
}

/// Offers each cell of a row a merge; `base` is its cost without the left side. Where that side serves an item, an order
/// that begins with it can serve no front but the first two and the item's own.
pub(crate) fn merge_row(
    row: &mut [Cell],
    heads: &[Option<Item>],
    left: &[Cell],
    need: usize,
    base: u128,
)
    requires heads_each { length heads.now ≡ length row.old }
    requires apart { AreHeadsApart heads.now }
    requires left_each { length left.now ≡ length row.old }
    requires need_in { need < length row.old }
    requires capped { IsCapped left.now }
    requires base_most { base ≤ 2000000000000000000000000000000 }
    ensures { (f : ℕ) → f < length row.old → cell_at row.new f ≡ steps.merged (cell_at row.old f) (longer_front (slice_index_or heads.now need None) (slice_index_or heads.now f None) need f) left.now base }
{
    if need < 2 {
        merge_each(row, heads, left, need, base);
    } else {
        merge_cell(row, heads, left, need, base, 0);
        merge_cell(row, heads, left, need, base, 1);
        merge_cell(row, heads, left, need, base, need);
    }
}

/// Offers each cell of a row a hash join of that cost, which serves no front but the first two.
pub(crate) fn hash_row(row: &mut [Cell], heads: &[Option<Item>], cost: u128)
    requires some { 2 ≤ length row.old }
    requires heads_each { length heads.now ≡ length row.old }
    requires apart { AreHeadsApart heads.now }
    ensures { (f : ℕ) → f < length row.old → cell_at row.new f ≡ steps.hashed (cell_at row.old f) (slice_index_or heads.now f None) cost }
{
    row[0] = hashed(row[0], heads[0], cost);
    row[1] = hashed(row[1], heads[1], cost);
}

/// Offers each cell of a row these merges of two sets, whose own rows are given; `price` is what merging costs.
pub(crate) fn merge_rows(
    row: &mut [Cell],
    heads: &[Option<Item>],
    left: &[Cell],
    right: &[Cell],
    price: u128,
    merges: &[Merge],
)
    requires heads_each { length heads.now ≡ length row.old }
    requires apart { AreHeadsApart heads.now }
    requires left_each { length left.now ≡ length row.old }
    requires right_each { length right.now ≡ length row.old }
    requires left_capped { IsCapped left.now }
    requires right_capped { IsCapped right.now }
    requires price_most { price ≤ 4000000000000000000 }
    requires needs_in { (j : ℕ) → j < length merges.now → (merge_at merges.now j).left_need < length row.old }
    requires fronts_in { (j : ℕ) → j < length merges.now → (merge_at merges.now j).right_front < length row.old }
    ensures step { steps.IsStep (length row.old) (IsMerged heads.now left.now right.now price merges.now) row.old row.new }
    ensures bounds { (f : ℕ) → f < length row.old → MergesBound heads.now left.now right.now price merges.now f (cost_at row.new f) }
{
    for merge in merges {
        let base = any_of(right, merge.right_front) + price;
        merge_row(row, heads, left, merge.left_need, base);
    }
}
