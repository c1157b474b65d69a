//! The ends of columns' histograms.
ghost use Rattle.std.specs.Prelude.{◌≡◌, ◌≤◌, ◌<◌, [], length, true, IfOk};
ghost use Rattle.toml.specs.View.{view, items_view, table_view};
ghost use Rattle.adv_base.specs.declared.limits.TheConstants.{MOST_BOUNDS};
ghost use Rattle.adv_base.specs.Limits.Numbers.{BoundsLimits, EndLimits};
ghost use Rattle.catalogue.specs.Catalogue as rows;
ghost use Rattle.catalogue.specs.Values.{Gives, read_each};

use crate::fault::{CatFault, KeyField};
use crate::paths::{bound_path, column_path};
use crate::{keys, values};
use adv_base::limits::MOST_BOUNDS;
use adv_base::{Kind, List};
use std::alloc::Global;
use toml::{Table, Value};

/// Whether an end isn't below the one before it.
fn rises(earlier: &[i64], end: i64) -> bool
    ensures { result ≡ rows.rises earlier.now end }
{
    earlier.is_empty() || earlier[earlier.len() - 1] <= end
}

/// The end behind the earlier ones, of a column of a kind.
fn bound(
    table: u32,
    column: u32,
    kind: Kind,
    earlier: &[i64],
    value: &Value,
) -> Result<i64, CatFault>
    requires { length earlier.now < MOST_BOUNDS }
    ensures exact { Gives (λ z. z) result (rows.next_bound table column kind earlier.now (view value.now)) }
    ensures within { IfOk result EndLimits }
    ensures rising { IfOk result (λ z. rows.rises earlier.now z ≡ true) }
{
    let path = bound_path(table, column, earlier.len() as u32 + 1);
    let end = values::end_value(value, path, kind)?;
    if !rises(earlier, end) {
        return Err(CatFault::OutOfRange(path));
    }
    Ok(end)
}

/// The ends that an array gives a column of a kind.
fn bounds_in(
    alloc: Global,
    table: u32,
    column: u32,
    kind: Kind,
    items: &[Value],
) -> Result<List<i64>, CatFault>
    requires some { 2 ≤ length items.now }
    requires few { length items.now ≤ MOST_BOUNDS }
    ensures exact { Gives (λ x. x) result (read_each (rows.next_bound table column kind) [] (items_view items.now)) }
    ensures limits { IfOk result BoundsLimits }
{
    let mut ends = Vec::new(alloc);
    for value in items {
        let end = bound(table, column, kind, ends.as_slice(), value)?;
        ends.push(end)?;
    }
    Ok(List { items: ends })
}

/// The ends of a column's histogram, of which a column of texts has none.
fn given_bounds(
    alloc: Global,
    table: u32,
    column: u32,
    kind: Kind,
    found: &Table,
) -> Result<List<i64>, CatFault>
    ensures exact { Gives (λ x. x) result (rows.given_bounds table column kind (table_view found.now)) }
    ensures limits { IfOk result BoundsLimits }
{
    if let Kind::Text = kind {
        return Ok(List::new(alloc));
    }
    let path = column_path(table, column, KeyField::Bounds);
    match keys::value_at(found, "bounds") {
        Some(value) => {
            let items = values::elements_within(value, path, 2, MOST_BOUNDS)?;
            bounds_in(alloc, table, column, kind, items)
        }
        None => Ok(List::new(alloc)),
    }
}

/// The ends of the histogram of the column of these numbers, which is of a kind; version 1 has none.
pub fn bounds(
    alloc: Global,
    version: u64,
    table: u32,
    column: u32,
    kind: Kind,
    found: &Table,
) -> Result<List<i64>, CatFault>
    ensures exact { Gives (λ x. x) result (rows.bounds_of version table column kind (table_view found.now)) }
    ensures limits { IfOk result BoundsLimits }
{
    if version < 2 {
        return Ok(List::new(alloc));
    }
    given_bounds(alloc, table, column, kind, found)
}
