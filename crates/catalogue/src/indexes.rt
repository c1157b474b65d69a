//! The indexes of a table.
ghost use Rattle.std.specs.Prelude.{◌≡◌, ◌≤◌, ◌<◌, ◌+◌, ◌∷◌, ◌++◌, [], codes, length, All, IfOk, OnOk, nat_eq, false};
ghost use Rattle.adv_base.specs.declared.limits.TheConstants.{MOST_COLUMNS, MOST_INDEXES, MOST_KEYS, MOST_TABLES};
ghost use Rattle.std.specs.List.{list_any};
ghost use Rattle.toml.specs.View.{view, items_view, table_view};
ghost use Rattle.adv_base.specs.Limits.Numbers.{KeyLimits};
ghost use Rattle.catalogue.specs.Catalogue as rows;
ghost use Rattle.catalogue.specs.Content.{plain_index, plain_indexes, plain_shape};
ghost use Rattle.catalogue.specs.Keys.{given_or};
ghost use Rattle.catalogue.specs.Values.{folded, Gives, read_each};

use crate::fault::{CatFault, KeyField, KeyPath};
use crate::names::Names;
use crate::paths::{index_path, key_column_path};
use crate::{keys, values};
use adv_base::limits::{MOST_INDEXES, MOST_KEYS};
use adv_base::{Index, IndexShape, List};
use std::alloc::{AllocError, Global};
use toml::{Table, Value};

/// The key column of an index behind the earlier ones, by its number among the table's columns.
fn key_column(
    alloc: Global,
    table: u32,
    index: u32,
    columns: &Names,
    earlier: &[u16],
    value: &Value,
) -> Result<u16, CatFault>
    requires known { length columns.now ≤ MOST_COLUMNS }
    requires few { length earlier.now < MOST_KEYS }
    ensures exact { Gives (λ k. k) result (rows.next_key table index columns.now earlier.now (view value.now)) }
    ensures known { IfOk result (λ k. k < length columns.now) }
    ensures apart { IfOk result (λ k. list_any (λ y. nat_eq y k) earlier.now ≡ false) }
{
    let path = key_column_path(table, index, earlier.len() as u32 + 1);
    let word = values::text(value, path)?;
    let Some(number) = columns.number_of(alloc, word)? else {
        return Err(CatFault::UnknownName(path));
    };
    let key = number as u16;
    if earlier.contains(&key) {
        return Err(CatFault::TwoNames(path));
    }
    Ok(key)
}

/// The key columns of an index of a table that has these columns.
fn keys_in(
    alloc: Global,
    table: u32,
    index: u32,
    columns: &Names,
    items: &[Value],
) -> Result<List<u16>, CatFault>
    requires some { 1 ≤ length items.now }
    requires few { length items.now ≤ MOST_KEYS }
    requires known { length columns.now ≤ MOST_COLUMNS }
    ensures exact { Gives (λ k. k) result
        (read_each (rows.next_key table index columns.now) [] (items_view items.now)) }
    ensures known { IfOk result (All (λ k. k < length columns.now)) }
    ensures limits { IfOk result KeyLimits }
{
    let mut keys = Vec::new(alloc);
    for value in items {
        let key = key_column(alloc, table, index, columns, keys.as_slice(), value)?;
        keys.push(key)?;
    }
    Ok(List { items: keys })
}

/// The 1 to 8 key columns of an index of a table that has these columns.
fn key_columns(
    alloc: Global,
    table: u32,
    index: u32,
    columns: &Names,
    keys: &Table,
) -> Result<List<u16>, CatFault>
    requires { length columns.now ≤ MOST_COLUMNS }
    ensures exact { Gives (λ k. k) result (rows.keys_needed table index columns.now (table_view keys.now)) }
    ensures known { IfOk result (All (λ k. k < length columns.now)) }
    ensures limits { IfOk result KeyLimits }
{
    let path = index_path(table, index, KeyField::Keys);
    let value = keys::needed(keys, "keys", path)?;
    let items = values::elements_within(value, path, 1, MOST_KEYS)?;
    keys_in(alloc, table, index, columns, items)
}

/// Whether an index is clustered, of which a table has one at most; `taken` says that it has one.
fn clustered(keys: &Table, path: KeyPath, taken: bool) -> Result<bool, CatFault>
    ensures { Gives (λ b. b) result (rows.clustered path taken (table_view keys.now)) }
{
    let clustered = keys::flag(keys, "clustered", path)?;
    if clustered && taken {
        return Err(CatFault::OutOfRange(path));
    }
    Ok(clustered)
}

/// The keys of an index, of which there are at most 1000 over all tables; `before` counts those before it.
fn keys_of(value: &Value, path: KeyPath, before: usize) -> Result<&Table, CatFault>
    ensures exact { Gives (λ t. table_view t.now) result (rows.index_keys path before (view value.now)) }
    ensures room { OnOk result (before < MOST_INDEXES) }
{
    let keys = values::keys_of(value, path)?;
    if before >= MOST_INDEXES {
        return Err(CatFault::OutOfRange(path));
    }
    Ok(keys)
}

/// The shape of the index of this number of a table that has these columns; `taken` says that one of the table is
/// clustered.
#[tactic(auto, unfolding(crate::specs::Catalogue::shape_of))]
fn shape(
    alloc: Global,
    table: u32,
    number: u32,
    columns: &Names,
    taken: bool,
    found: &Table,
) -> Result<IndexShape, CatFault>
    requires some { 1 ≤ table }
    requires most { table ≤ MOST_TABLES }
    requires known { length columns.now ≤ MOST_COLUMNS }
    ensures exact { Gives plain_shape result (rows.shape_of table number columns.now taken (table_view found.now)) }
    ensures own { IfOk result (λ shape. shape.table + 1 ≡ table) }
    ensures known { IfOk result (λ shape. All (λ k. k < length columns.now) shape.keys) }
{
    let key_columns = key_columns(alloc, table, number, columns, found)?;
    let unique = keys::flag(found, "unique", index_path(table, number, KeyField::Unique))?;
    let clustered = clustered(found, index_path(table, number, KeyField::Clustered), taken)?;
    Ok(IndexShape {
        table: (table - 1) as u16,
        keys: key_columns,
        unique,
        clustered,
    })
}

/// One index of the table of this number, which has these columns. Its name joins those of the table's indexes before
/// it; `before` counts the indexes before it over all tables, and `taken` says that one of its table is clustered.
#[tactic(auto, unfolding(crate::specs::Catalogue::index_at))]
fn index(
    alloc: Global,
    table: u32,
    columns: &Names,
    before: usize,
    names: &mut Names,
    taken: bool,
    value: &Value,
) -> Result<Index, CatFault>
    requires some { 1 ≤ table }
    requires most { table ≤ MOST_TABLES }
    requires known { length columns.now ≤ MOST_COLUMNS }
    requires few { length names.old ≤ MOST_INDEXES }
    ensures exact { Gives plain_index result (rows.index_at table columns.now before names.old taken (view value.now)) }
    ensures joins { IfOk result (λ index. names.new ≡ names.old ++ folded index.name ∷ []) }
    ensures room { OnOk result (before < MOST_INDEXES) }
    ensures own { IfOk result (λ index. index.shape.table + 1 ≡ table) }
    ensures known { IfOk result (λ index. All (λ k. k < length columns.now) index.shape.keys) }
{
    let number = names.len() as u32 + 1;
    let found = keys_of(value, index_path(table, number, KeyField::Itself), before)?;
    let path = index_path(table, number, KeyField::Name);
    let name = keys::needed_name(alloc, found, path, names)?;
    let shape = shape(alloc, table, number, columns, taken, found)?;
    Ok(Index { name, shape })
}

/// Puts an index behind the others.
fn put(indexes: &mut List<Index>, index: Index) -> Result<(), AllocError>
    ensures { OnOk result (indexes.new ≡ indexes.old ++ index ∷ []) }
{
    indexes.items.push(index)?;
    Ok(())
}

/// Reads the indexes of the table of this number, which has these columns, and their names, where there are none yet;
/// `before` counts those of the tables before it.
fn read_indexes(
    alloc: Global,
    table: u32,
    columns: &Names,
    before: usize,
    items: &[Value],
    indexes: &mut List<Index>,
    names: &mut Names,
) -> Result<(), CatFault>
    requires some { 1 ≤ table }
    requires most { table ≤ MOST_TABLES }
    requires known { length columns.now ≤ MOST_COLUMNS }
    requires few { before ≤ MOST_INDEXES }
    requires no_indexes { indexes.old ≡ [] }
    requires no_names { names.old ≡ [] }
    ensures exact { Gives (λ _. plain_indexes indexes.new) result
        (read_each (rows.next_index table columns.now before) [] (items_view items.now)) }
    ensures room { OnOk result (before + length indexes.new ≤ MOST_INDEXES) }
    ensures own { OnOk result (All (λ index. index.shape.table + 1 ≡ table) indexes.new) }
    ensures known { OnOk result (All (λ index. All (λ k. k < length columns.now) index.shape.keys) indexes.new) }
{
    let mut taken = false;
    for value in items {
        let here = before + indexes.len();
        let next = index(alloc, table, columns, here, names, taken, value)?;
        taken = taken | next.shape.clustered;
        put(indexes, next)?;
    }
    Ok(())
}

/// The indexes of the table of this number, which has these columns; `before` counts those of the tables before it.
fn indexes_in(
    alloc: Global,
    table: u32,
    columns: &Names,
    before: usize,
    items: &[Value],
) -> Result<List<Index>, CatFault>
    requires some { 1 ≤ table }
    requires most { table ≤ MOST_TABLES }
    requires known { length columns.now ≤ MOST_COLUMNS }
    requires few { before ≤ MOST_INDEXES }
    ensures exact { Gives plain_indexes result
        (read_each (rows.next_index table columns.now before) [] (items_view items.now)) }
    ensures room { IfOk result (λ x. before + length x ≤ MOST_INDEXES) }
    ensures own { IfOk result (All (λ index. index.shape.table + 1 ≡ table)) }
    ensures known { IfOk result (All (λ index. All (λ k. k < length columns.now) index.shape.keys)) }
{
    let mut indexes = List::new(alloc);
    let mut names = Names::new(alloc);
    read_indexes(
        alloc,
        table,
        columns,
        before,
        items,
        &mut indexes,
        &mut names,
    )?;
    Ok(indexes)
}

/// The indexes of the table of this number, which may be left out.
pub fn indexes(
    alloc: Global,
    table: u32,
    columns: &Names,
    before: usize,
    keys: &Table,
    path: KeyPath,
) -> Result<List<Index>, CatFault>
    requires some { 1 ≤ table }
    requires most { table ≤ MOST_TABLES }
    requires known { length columns.now ≤ MOST_COLUMNS }
    requires few { before ≤ MOST_INDEXES }
    ensures exact { Gives plain_indexes result
        (given_or [] (codes "index") path (rows.indexes_of table columns.now before) (table_view keys.now)) }
    ensures room { IfOk result (λ x. before + length x ≤ MOST_INDEXES) }
    ensures own { IfOk result (All (λ index. index.shape.table + 1 ≡ table)) }
    ensures known { IfOk result (All (λ index. All (λ k. k < length columns.now) index.shape.keys)) }
{
    match keys::value_at(keys, "index") {
        Some(value) => {
            let items = values::elements(value, path)?;
            indexes_in(alloc, table, columns, before, items)
        }
        None => Ok(List::new(alloc)),
    }
}
