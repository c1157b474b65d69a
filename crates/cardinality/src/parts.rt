//! Selectivities, as parts of 10^9.
ghost use Rattle.std.specs.Prelude.{◌≡◌, ℕ, ◌<◌, ◌≤◌, ◌*◌, length, Contains, Some};
ghost use Rattle.std.specs.Int.{int_min, int_max};
ghost use Rattle.std.specs.Option.{ForSome};
ghost use Rattle.adv_base.specs.declared.workload.predicate.Test.TheVariants.{Same, OneOf};
ghost use Rattle.adv_base.specs.Named.{NamesBlock};
ghost use Rattle.adv_base.specs.Lookups as lookup;
ghost use Rattle.adv_base.specs.Parts as part;
ghost use Rattle.adv_base.specs.Sums.{height as height_of};
ghost use Rattle.adv_base.specs.declared.limits.TheConstants.{MOST_ROWS, WHOLE};

use crate::range::Range;
use crate::shares::share;
use crate::sums::{clamped_part, height};
use adv_base::limits::WHOLE;
use adv_base::{
    Block, Catalogue, Column, Edge, Pred, Table, Test, Value, slot_table, table_column,
};

/// What `c > v` keeps where the place of `v` isn't known: a third.
const A_THIRD: u64 = 333333334;
/// What BETWEEN keeps where a place isn't known: a quarter.
const A_QUARTER: u64 = 250000000;
/// What LIKE and IS NULL keep, and an equality without a number of distinct values: a tenth.
const A_TENTH: u64 = 100000000;
/// What IN keeps at most: a half.
const A_HALF: u64 = 500000000;

/// `c = value`.
fn equal_part(distinct: Option<u64>) -> u64
    requires { ForSome distinct (λ d. 1 ≤ d) }
    ensures exact { result ≡ part.equal_part distinct }
    ensures least { 1 ≤ result }
    ensures most { result ≤ WHOLE }
{
    match distinct {
        None => A_TENTH,
        Some(count) => clamped_part(WHOLE as u128, count),
    }
}

/// `c1 = c2`.
fn tied_part(left: Option<u64>, right: Option<u64>) -> u64
    requires left_some { ForSome left (λ d. 1 ≤ d) }
    requires right_some { ForSome right (λ d. 1 ≤ d) }
    ensures exact { result ≡ part.tied_part left right }
    ensures least { 1 ≤ result }
    ensures most { result ≤ WHOLE }
{
    let Some(left_count) = left else {
        return equal_part(right);
    };
    let Some(right_count) = right else {
        return equal_part(left);
    };
    equal_part(Some(left_count.max(right_count)))
}

/// `c > v`.
fn above_part(column: &Column, value: Value) -> u64
    ensures exact { result ≡ part.above_part column.now value }
    ensures least { 1 ≤ result }
    ensures most { result ≤ WHOLE }
{
    let Value::Number(number) = value else {
        return A_THIRD;
    };
    if !column.bounds.is_empty() {
        return (WHOLE - share(column.bounds.as_slice(), number)).max(1);
    }
    match Range::of(column) {
        None => A_THIRD,
        Some(range) => range.share(height(range.high, number)),
    }
}

/// `c < v`.
fn below_part(column: &Column, value: Value) -> u64
    ensures exact { result ≡ part.below_part column.now value }
    ensures least { 1 ≤ result }
    ensures most { result ≤ WHOLE }
{
    let Value::Number(number) = value else {
        return A_THIRD;
    };
    if !column.bounds.is_empty() {
        return share(column.bounds.as_slice(), number).max(1);
    }
    match Range::of(column) {
        None => A_THIRD,
        Some(range) => range.share(height(number, range.low)),
    }
}

/// The part of a column's range from `first` to `last`.
fn spanned_part(column: &Column, first: i64, last: i64) -> u64
    ensures exact { result ≡ part.range_part column.now.low column.now.high (λ low high. height_of (int_min last high) (int_max first low)) 250000000 }
    ensures least { 1 ≤ result }
    ensures most { result ≤ WHOLE }
{
    match Range::of(column) {
        None => A_QUARTER,
        Some(range) => range.share(height(last.min(range.high), first.max(range.low))),
    }
}

/// `c BETWEEN v AND w`.
fn between_part(column: &Column, from: Value, to: Value) -> u64
    ensures exact { result ≡ part.between_part column.now from to }
    ensures least { 1 ≤ result }
    ensures most { result ≤ WHOLE }
{
    let Value::Number(first) = from else {
        return A_QUARTER;
    };
    let Value::Number(last) = to else {
        return A_QUARTER;
    };
    if !column.bounds.is_empty() {
        let ends = column.bounds.as_slice();
        return share(ends, last).saturating_sub(share(ends, first)).max(1);
    }
    spanned_part(column, first, last)
}

/// Any test of a column of the table.
pub fn test_part(table: &Table, column: &Column, test: Test) -> u64
    requires same { (other : ℕ) → test ≡ Same other → other < length table.now.columns }
    requires items { (n : ℕ) → test ≡ OneOf n → 1 ≤ n }
    ensures exact { result ≡ part.test_part table.now column.now test }
    ensures least { 1 ≤ result }
    ensures most { result ≤ WHOLE }
{
    match test {
        Test::Equal => equal_part(column.distinct),
        Test::NotEqual => (WHOLE - equal_part(column.distinct)).max(1),
        Test::Below(value) => below_part(column, value),
        Test::Above(value) => above_part(column, value),
        Test::Between(from, to) => between_part(column, from, to),
        Test::OneOf(items) => (items as u64 * equal_part(column.distinct)).min(A_HALF),
        Test::Like => A_TENTH,
        Test::IsNull => A_TENTH,
        Test::NotNull => WHOLE,
        Test::Same(other) => tied_part(column.distinct, table_column(table, other).distinct),
    }
}

/// The part of its slot's rows that a predicate of the block keeps, of 10^9: by the number of distinct values of its
/// column, or by the share of its histogram or of its range that it spans; a fixed part where the statistics don't tell.
#[tactic(auto, unfolding(adv_base::specs::Parts::pred_part))]
pub fn part_of(cat: &Catalogue, block: &Block, pred: &Pred) -> u64
    requires named { NamesBlock cat.now block.now }
    requires own { Contains block.now.preds pred.now }
    ensures exact { result ≡ part.pred_part cat.now block.now pred.now }
    ensures least { 1 ≤ result }
    ensures most { result ≤ WHOLE }
{
    let table = slot_table(cat, block, pred.slot);
    test_part(table, table_column(table, pred.column), pred.test)
}

/// The number of distinct values of a slot's column, where it is known.
pub fn slot_distinct_count(cat: &Catalogue, block: &Block, slot: u8, column: u16) -> Option<u64>
    requires named { NamesBlock cat.now block.now }
    requires slot_there { slot < length block.now.slots }
    requires column_there { column < lookup.slot_columns cat.now block.now slot }
    ensures exact { result ≡ lookup.slot_distinct cat.now block.now slot column }
    ensures some { ForSome result (λ d. 1 ≤ d) }
    ensures few { ForSome result (λ d. d ≤ MOST_ROWS) }
{
    table_column(slot_table(cat, block, slot), column).distinct
}

/// The part of all pairs of rows that a join edge of the block keeps, of 10^9: by the greater number of distinct values
/// of its two columns that is known.
#[tactic(auto, unfolding(adv_base::specs::Parts::edge_part))]
pub fn edge_part(cat: &Catalogue, block: &Block, edge: &Edge) -> u64
    requires named { NamesBlock cat.now block.now }
    requires own { Contains block.now.edges edge.now }
    ensures exact { result ≡ part.edge_part cat.now block.now edge.now }
    ensures least { 1 ≤ result }
    ensures most { result ≤ WHOLE }
{
    let left = slot_distinct_count(cat, block, edge.left, edge.left_column);
    let right = slot_distinct_count(cat, block, edge.right, edge.right_column);
    tied_part(left, right)
}
