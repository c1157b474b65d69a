//! The columns of a table.
ghost use Rattle.std.specs.Prelude.{◌≡◌, ◌≤◌, ◌<◌, ◌∷◌, ◌++◌, [], length, IfOk, OnOk};
ghost use Rattle.adv_base.specs.declared.limits.TheConstants.{MOST_COLUMNS};
ghost use Rattle.toml.specs.View.{view, items_view};
ghost use Rattle.catalogue.specs.Catalogue as rows;
ghost use Rattle.catalogue.specs.Content.{plain_column, plain_columns};
ghost use Rattle.catalogue.specs.Values.{folded, Gives, read_each};

use crate::bounds::bounds;
use crate::fault::{CatFault, KeyField, KeyPath};
use crate::names::Names;
use crate::paths::column_path;
use crate::ranges::range;
use crate::{keys, values};
use adv_base::limits::{MOST_COLUMNS, MOST_ROWS, MOST_WIDTH};
use adv_base::{Column, List};
use std::alloc::{AllocError, Global};
use toml::Value;

/// One column of the table of this number. Its name joins those of the columns before it.
#[tactic(auto, unfolding(crate::specs::Catalogue::column_at))]
fn column(
    alloc: Global,
    version: u64,
    table: u32,
    names: &mut Names,
    value: &Value,
) -> Result<Column, CatFault>
    requires { length names.old < MOST_COLUMNS }
    ensures exact { Gives plain_column result (rows.column_at version table names.old (view value.now)) }
    ensures joins { IfOk result (λ column. names.new ≡ names.old ++ folded column.name ∷ []) }
{
    let number = names.len() as u32 + 1;
    let found = values::keys_of(value, column_path(table, number, KeyField::Itself))?;
    let path = column_path(table, number, KeyField::Name);
    let name = keys::needed_name(alloc, found, path, names)?;
    let kind = keys::needed_kind(found, column_path(table, number, KeyField::Kind))?;
    let path = column_path(table, number, KeyField::Width);
    let width = keys::needed_natural(found, "width", path, 1, MOST_WIDTH as u64)?;
    let path = column_path(table, number, KeyField::Distinct);
    let distinct = keys::optional_natural(found, "distinct", path, 1, MOST_ROWS)?;
    let (low, high) = range(table, number, kind, found)?;
    let bounds = bounds(alloc, version, table, number, kind, found)?;
    Ok(Column {
        name,
        kind,
        width: width as u16,
        distinct,
        low,
        high,
        bounds,
    })
}

/// Puts a column behind the others.
fn put(columns: &mut List<Column>, column: Column) -> Result<(), AllocError>
    ensures { OnOk result (columns.new ≡ columns.old ++ column ∷ []) }
{
    columns.items.push(column)?;
    Ok(())
}

/// Reads the columns of the table of this number, and their names, where there are none yet.
fn read_columns(
    alloc: Global,
    version: u64,
    table: u32,
    items: &[Value],
    columns: &mut List<Column>,
    names: &mut Names,
) -> Result<(), CatFault>
    requires few { length items.now ≤ MOST_COLUMNS }
    requires no_columns { columns.old ≡ [] }
    requires no_names { names.old ≡ [] }
    ensures exact { Gives (λ _. plain_columns columns.new) result (read_each (rows.next_column version table) [] (items_view items.now)) }
    ensures names { OnOk result (names.new ≡ rows.column_names (plain_columns columns.new)) }
    ensures count { OnOk result (length columns.new ≡ length items.now) }
{
    for value in items {
        let next = column(alloc, version, table, names, value)?;
        put(columns, next)?;
    }
    Ok(())
}

/// Reads the 1 to 200 columns that an array gives the table of this number, where there are none yet; answers their
/// names.
pub fn columns(
    alloc: Global,
    version: u64,
    table: u32,
    value: &Value,
    path: KeyPath,
    columns: &mut List<Column>,
) -> Result<Names, CatFault>
    requires { columns.old ≡ [] }
    ensures exact { Gives (λ _. plain_columns columns.new) result (rows.columns_of version table path (view value.now)) }
    ensures names { IfOk result (λ names. names ≡ rows.column_names (plain_columns columns.new)) }
    ensures count { OnOk result ((1 ≤ length columns.new) × (length columns.new ≤ MOST_COLUMNS)) }
{
    let items = values::elements_within(value, path, 1, MOST_COLUMNS)?;
    let mut names = Names::new(alloc);
    read_columns(alloc, version, table, items, columns, &mut names)?;
    Ok(names)
}
