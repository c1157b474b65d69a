//! The tables of a catalogue.
ghost use Rattle.std.specs.Prelude.{◌≡◌, ◌≤◌, ◌<◌, ◌+◌, ◌∷◌, ◌++◌, [], codes, length, All, IfOk, OnOk};
ghost use Rattle.adv_base.specs.declared.limits.TheConstants.{MOST_PAGES, MOST_ROWS, MOST_TABLES, MOST_COLUMNS, MOST_INDEXES};
ghost use Rattle.toml.specs.View.{view, items_view, table_view};
ghost use Rattle.adv_base.specs.Limits.Catalogues.{CatalogueLimits};
ghost use Rattle.catalogue.specs.Catalogue as rows;
ghost use Rattle.catalogue.specs.Content.{plain_columns, plain_indexes, plain_table, plain_tables};
ghost use Rattle.catalogue.specs.Paths as paths;
ghost use Rattle.catalogue.specs.Keys as key_rules;
ghost use Rattle.catalogue.specs.Values.{folded, Gives, read_each};

use crate::columns::columns;
use crate::fault::{CatFault, KeyField};
use crate::indexes::indexes;
use crate::names::Names;
use crate::paths::table_path;
use crate::{keys, values};
use adv_base::limits::{MOST_PAGES, MOST_ROWS, MOST_TABLES};
use adv_base::{Column, Index, List, Table};
use std::alloc::{AllocError, Global};
use toml::Value;

/// Reads the columns of the table of this number, which are needed, where there are none yet; answers their names.
fn needed_columns(
    alloc: Global,
    version: u64,
    table: u32,
    keys: &toml::Table,
    into: &mut List<Column>,
) -> Result<Names, CatFault>
    requires { into.old ≡ [] }
    ensures exact { Gives (λ _. plain_columns into.new) result
        (key_rules.needed (codes "column") (paths.table_path table KeyField.Columns) (rows.columns_of version table)
        (table_view keys.now)) }
    ensures names { IfOk result (λ names. names ≡ rows.column_names (plain_columns into.new)) }
    ensures count { OnOk result ((1 ≤ length into.new) × (length into.new ≤ MOST_COLUMNS)) }
{
    let path = table_path(table, KeyField::Columns);
    let value = keys::needed(keys, "column", path)?;
    columns(alloc, version, table, value, path, into)
}

/// The rows and the pages of the table of this number.
#[tactic(auto, unfolding(crate::specs::Catalogue::size_of))]
fn size(number: u32, found: &toml::Table) -> Result<(u64, u64), CatFault>
    ensures exact { Gives (λ x. x) result (rows.size_of number (table_view found.now)) }
    ensures most { IfOk result (λ x. (x.0 ≤ MOST_ROWS) × (x.1 ≤ MOST_PAGES)) }
{
    let path = table_path(number, KeyField::Rows);
    let rows = keys::needed_natural(found, "rows", path, 0, MOST_ROWS)?;
    let path = table_path(number, KeyField::Pages);
    let pages = keys::needed_natural(found, "pages", path, 0, MOST_PAGES)?;
    Ok((rows, pages))
}

/// Whether the table of this number may be clustered anew; version 1 has no such key.
fn may_cluster(version: u64, number: u32, found: &toml::Table) -> Result<bool, CatFault>
    ensures { Gives (λ b. b) result (rows.may_cluster_of version number (table_view found.now)) }
{
    if version < 2 {
        return Ok(false);
    }
    keys::flag(
        found,
        "may_cluster",
        table_path(number, KeyField::MayCluster),
    )
}

/// Reads the columns of the table of this number, where there are none yet, and its indexes; `before` counts the indexes
/// of the tables before it.
#[tactic(auto, unfolding(crate::specs::Catalogue::parts_of))]
fn read_parts(
    alloc: Global,
    version: u64,
    number: u32,
    before: usize,
    found: &toml::Table,
    columns: &mut List<Column>,
) -> Result<List<Index>, CatFault>
    requires some { 1 ≤ number }
    requires most { number ≤ MOST_TABLES }
    requires room { before ≤ MOST_INDEXES }
    requires no_columns { columns.old ≡ [] }
    ensures exact { Gives (λ x. (plain_columns columns.new, plain_indexes x)) result (rows.parts_of version number before (table_view found.now)) }
    ensures count { OnOk result ((1 ≤ length columns.new) × (length columns.new ≤ MOST_COLUMNS)) }
    ensures room { IfOk result (λ x. before + length x ≤ MOST_INDEXES) }
    ensures own { IfOk result (λ x. All (λ index. index.shape.table + 1 ≡ number) x) }
    ensures known { IfOk result (λ x. All (λ index. All (λ k. k < length columns.new) index.shape.keys) x) }
{
    let names = needed_columns(alloc, version, number, found, columns)?;
    let path = table_path(number, KeyField::Indexes);
    let indexes = indexes(alloc, number, &names, before, found, path)?;
    Ok(indexes)
}

/// The columns and the indexes of the table of this number; `before` counts the indexes of the tables before it.
fn parts(
    alloc: Global,
    version: u64,
    number: u32,
    before: usize,
    found: &toml::Table,
) -> Result<(List<Column>, List<Index>), CatFault>
    requires some { 1 ≤ number }
    requires most { number ≤ MOST_TABLES }
    requires room { before ≤ MOST_INDEXES }
    ensures exact { Gives (λ x. (plain_columns x.0, plain_indexes x.1)) result (rows.parts_of version number before (table_view found.now)) }
    ensures count { IfOk result (λ x. (1 ≤ length x.0) × (length x.0 ≤ MOST_COLUMNS)) }
    ensures room { IfOk result (λ x. before + length x.1 ≤ MOST_INDEXES) }
    ensures own { IfOk result (λ x. All (λ index. index.shape.table + 1 ≡ number) x.1) }
    ensures known { IfOk result (λ x. All (λ index. All (λ k. k < length x.0) index.shape.keys) x.1) }
{
    let mut columns = List::new(alloc);
    let indexes = read_parts(alloc, version, number, before, found, &mut columns)?;
    Ok((columns, indexes))
}

/// One table. Its name joins those of the tables before it, which have `before` indexes.
#[tactic(auto, unfolding(crate::specs::Catalogue::table_at))]
fn table(
    alloc: Global,
    version: u64,
    before: usize,
    names: &mut Names,
    value: &Value,
) -> Result<Table, CatFault>
    requires few { length names.old < MOST_TABLES }
    requires room { before ≤ MOST_INDEXES }
    ensures exact { Gives plain_table result (rows.table_at version before names.old (view value.now)) }
    ensures joins { IfOk result (λ table. names.new ≡ names.old ++ folded table.name ∷ []) }
    ensures room { IfOk result (λ table. before + length table.indexes ≤ MOST_INDEXES) }
    ensures own { IfOk result (λ table. All (λ index. index.shape.table ≡ length names.old) table.indexes) }
{
    let number = names.len() as u32 + 1;
    let found = values::keys_of(value, table_path(number, KeyField::Itself))?;
    let path = table_path(number, KeyField::Name);
    let name = keys::needed_name(alloc, found, path, names)?;
    let (rows, pages) = size(number, found)?;
    let may_cluster = may_cluster(version, number, found)?;
    let (columns, indexes) = parts(alloc, version, number, before, found)?;
    Ok(Table {
        name,
        rows,
        pages,
        may_cluster,
        columns,
        indexes,
    })
}

/// Puts a table behind the others.
fn put(tables: &mut List<Table>, table: Table) -> Result<(), AllocError>
    ensures { OnOk result (tables.new ≡ tables.old ++ table ∷ []) }
{
    tables.items.push(table)?;
    Ok(())
}

/// Reads the tables that an array gives, and their names, where there are none yet.
fn read_tables(
    alloc: Global,
    version: u64,
    items: &[Value],
    tables: &mut List<Table>,
    names: &mut Names,
) -> Result<(), CatFault>
    requires few { length items.now ≤ MOST_TABLES }
    requires no_tables { tables.old ≡ [] }
    requires no_names { names.old ≡ [] }
    ensures exact { Gives (λ _. plain_tables tables.new) result (read_each (rows.next_table version) [] (items_view items.now)) }
    ensures limits { OnOk result (CatalogueLimits tables.new) }
{
    let mut before = 0;
    for value in items {
        let next = table(alloc, version, before, names, value)?;
        before += next.indexes.len();
        put(tables, next)?;
    }
    Ok(())
}

/// The tables that an array gives.
fn tables_in(alloc: Global, version: u64, items: &[Value]) -> Result<List<Table>, CatFault>
    requires { length items.now ≤ MOST_TABLES }
    ensures exact { Gives plain_tables result (read_each (rows.next_table version) [] (items_view items.now)) }
    ensures limits { IfOk result CatalogueLimits }
{
    let mut tables = List::new(alloc);
    let mut names = Names::new(alloc);
    read_tables(alloc, version, items, &mut tables, &mut names)?;
    Ok(tables)
}

/// The tables of a document, at most 200, which may be left out.
pub fn tables(alloc: Global, version: u64, keys: &toml::Table) -> Result<List<Table>, CatFault>
    ensures exact { Gives plain_tables result
        (key_rules.given_or [] (codes "table") (paths.table_path 0 KeyField.Itself) (rows.tables_of version) (table_view keys.now)) }
    ensures limits { IfOk result CatalogueLimits }
{
    let path = table_path(0, KeyField::Itself);
    match keys::value_at(keys, "table") {
        Some(value) => {
            let items = values::elements_within(value, path, 0, MOST_TABLES)?;
            tables_in(alloc, version, items)
        }
        None => Ok(List::new(alloc)),
    }
}
