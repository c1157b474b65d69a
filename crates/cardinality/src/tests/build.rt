//! Catalogues and blocks for tests.
ghost use Rattle.std.specs.Prelude.{◌≡◌, ℕ, ◌<◌, ◌≤◌, IsTrue, IfSome, length};
ghost use Rattle.std.specs.Option.{ForSome};
ghost use Rattle.adv_base.specs.Limits.Numbers.{BoundsLimits, EndLimits};
ghost use Rattle.adv_base.specs.declared.workload.predicate.Test.TheVariants.{Same, OneOf};
ghost use Rattle.adv_base.specs.declared.limits.TheConstants.{MOST_ROWS};

use crate::parts::test_part;
use adv_base::{Block, Catalogue, Column, Edge, Kind, List, Name, Pred, Rates, Slot, Table, Test};
use std::alloc::Global;

/// What is known of a column's values.
#[derive(Clone, Copy, Debug)]
pub struct Statistics<'a> {
    pub distinct: Option<u64>,
    pub low: Option<i64>,
    pub high: Option<i64>,
    pub bounds: &'a [i64],
}

/// A name without bytes.
fn no_name(alloc: Global) -> Name {
    Name {
        items: Vec::new(alloc),
    }
}

/// Whether a number of distinct values keeps its limits.
fn is_count(count: Option<u64>) -> bool
    ensures least { IsTrue result → ForSome count (λ d. 1 ≤ d) }
    ensures most { IsTrue result → ForSome count (λ d. d ≤ MOST_ROWS) }
{
    match count {
        None => true,
        Some(n) => n >= 1 && n <= 1000000000000,
    }
}

/// Whether an end of a range keeps its limits.
fn is_end(end: Option<i64>) -> bool
    ensures { IsTrue result → ForSome end EndLimits }
{
    match end {
        None => true,
        Some(n) => n >= -1000000000000000000 && n <= 1000000000000000000,
    }
}

/// Whether the ends of a histogram keep their limits.
fn are_bounds(ends: &[i64]) -> bool
    ensures { IsTrue result → BoundsLimits ends.now }
{
    if ends.len() == 1 || ends.len() > 257 {
        return false;
    }
    for i in 0..ends.len() {
        if !is_end(Some(ends[i])) || (i > 0 && ends[i - 1] > ends[i]) {
            return false;
        }
    }
    true
}

/// Whether a test is of one column, and with some item where it has items.
fn is_alone(test: Test) -> bool
    ensures same { IsTrue result → (other : ℕ) → test ≡ Same other → other < 0 }
    ensures items { IsTrue result → (n : ℕ) → test ≡ OneOf n → 1 ≤ n }
{
    match test {
        Test::Same(_) => false,
        Test::OneOf(items) => items >= 1,
        _ => true,
    }
}

impl Statistics<'_> {
    /// A column of eight bytes with these statistics, where they keep the limits.
    pub fn column(self, alloc: Global) -> Option<Column> {
        let bounds = List {
            items: Vec::from_slice(alloc, self.bounds).ok()?,
        };
        if is_count(self.distinct)
            && is_end(self.low)
            && is_end(self.high)
            && are_bounds(bounds.as_slice())
        {
            Some(Column {
                name: no_name(alloc),
                kind: Kind::Int,
                width: 8,
                distinct: self.distinct,
                low: self.low,
                high: self.high,
                bounds,
            })
        } else {
            None
        }
    }

    /// The part of a test of such a column, but of an equality with another.
    pub fn part(self, alloc: Global, test: Test) -> Option<u64> {
        let table = table(alloc, 1, [self, self])?;
        let column = table.columns.items.get(0)?;
        if is_alone(test) {
            Some(test_part(&table, column, test))
        } else {
            None
        }
    }
}

/// A table of this number of rows with two columns.
pub fn table(alloc: Global, rows: u64, columns: [Statistics<'_>; 2]) -> Option<Table>
    ensures { IfSome result (λ table. (length table.columns ≡ 2) × (length table.indexes ≡ 0)) }
{
    let items = Vec::from_array(
        alloc,
        [columns[0].column(alloc)?, columns[1].column(alloc)?],
    )
    .ok()?;
    if rows > 1000000000000 {
        return None;
    }
    Some(Table {
        name: no_name(alloc),
        rows,
        pages: 1,
        may_cluster: false,
        columns: List { items },
        indexes: List::new(alloc),
    })
}
