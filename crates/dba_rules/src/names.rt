//! What the names of a rule mean in a catalogue, and which candidates it meets.
ghost use Rattle.std.specs.Prelude.{◌≡◌, ◌<◌, ◌≤◌, ◌==◌, ◌&&◌, length, not, if◌then◌else◌, IfOk, IfSome};
ghost use Rattle.adv_base.specs.declared.limits.TheConstants.{MOST_COLUMNS};
ghost use Rattle.std.specs.List.{list_any};
ghost use Rattle.dba_rules.specs.Faults.{Gives};
ghost use Rattle.dba_rules.specs.Names as names;

use crate::fault::RuleFault;
use crate::line::{IndexName, Named};
use adv_base::{Catalogue, Column, IndexShape, List, Name, Table, table_at};
use std::alloc::Global;

/// What a rule is about, by numbers: the indexes with these keys on a table, all of a table, or those with a key column.
#[derive(Debug, Drop)]
pub enum Target {
    Keys(u16, List<u16>, bool),
    Whole(u16),
    Holding(u16, u16),
}

/// Whether two names are the same once their ASCII letters are folded.
fn is_same_name(a: &[u8], b: &[u8]) -> bool
    ensures { result ≡ names.is_same_name a.now b.now }
{
    a.eq_ignore_ascii_case(b)
}

/// The number of the table of a name.
fn table_number(tables: &[Table], name: &[u8]) -> Option<usize>
    ensures exact { result ≡ names.table_number tables.now name.now }
    ensures within { IfSome result (λ t. t < length tables.now) }
{
    tables
        .iter()
        .position(|table| is_same_name(table.name.as_slice(), name))
}

/// The number of the column of a name.
fn column_number(columns: &[Column], name: &[u8]) -> Option<usize>
    ensures exact { result ≡ names.column_number columns.now name.now }
    ensures within { IfSome result (λ c. c < length columns.now) }
{
    columns
        .iter()
        .position(|column| is_same_name(column.name.as_slice(), name))
}

/// The columns of a table, by its number; none where there is no such table.
fn columns_of(cat: &Catalogue, table: u16) -> &[Column]
    ensures exact { result.now ≡ names.columns_of cat.now table }
    ensures few { length result.now ≤ MOST_COLUMNS }
{
    match table_at(cat, table) {
        Some(found) => found.columns.as_slice(),
        None => &[],
    }
}

/// The number of the table that a line names.
fn table_named(cat: &Catalogue, number: u32, name: &[u8]) -> Result<u16, RuleFault>
    ensures { Gives (λ t. t) result (names.table_named cat.now number name.now) }
{
    match table_number(cat.tables.as_slice(), name) {
        Some(table) => Ok(table as u16),
        None => Err(RuleFault::NoTable(number)),
    }
}

/// The number of a column that it names.
fn column_named(columns: &[Column], number: u32, name: &Name) -> Result<u16, RuleFault>
    requires { length columns.now ≤ MOST_COLUMNS }
    ensures { Gives (λ c. c) result (names.column_named columns.now number name.now) }
{
    match column_number(columns, name.as_slice()) {
        Some(column) => Ok(column as u16),
        None => Err(RuleFault::NoColumn(number)),
    }
}

/// The numbers of the columns that it names.
fn keys_named(
    alloc: Global,
    columns: &[Column],
    number: u32,
    words: &[Name],
) -> Result<List<u16>, RuleFault>
    requires { length columns.now ≤ MOST_COLUMNS }
    ensures { Gives (λ keys. keys) result (names.keys_named columns.now number words.now) }
{
    let mut items = Vec::new(alloc);
    for name in words {
        let column = column_named(columns, number, name)?;
        items.push(column)?;
    }
    Ok(List { items })
}

/// What an index of a line is, by numbers.
#[tactic(auto, unfolding(crate::specs::Names::index_target))]
pub fn index_target(
    alloc: Global,
    cat: &Catalogue,
    number: u32,
    index: &IndexName,
) -> Result<Target, RuleFault>
    ensures { Gives (λ target. target) result (names.index_target cat.now number index.now) }
{
    let table = table_named(cat, number, index.table.as_slice())?;
    let columns = columns_of(cat, table);
    let keys = keys_named(alloc, columns, number, index.columns.as_slice())?;
    Ok(Target::Keys(table, keys, index.clustered))
}

/// What a column of a line is.
#[tactic(auto, unfolding(crate::specs::Names::column_target))]
fn column_target(
    cat: &Catalogue,
    number: u32,
    table: &Name,
    column: &Name,
) -> Result<Target, RuleFault>
    ensures { Gives (λ target. target) result (names.column_target cat.now number table.now column.now) }
{
    let table = table_named(cat, number, table.as_slice())?;
    let columns = columns_of(cat, table);
    let column = column_named(columns, number, column)?;
    Ok(Target::Holding(table, column))
}

/// What a line names, by numbers.
pub fn target_of(
    alloc: Global,
    cat: &Catalogue,
    number: u32,
    named: &Named,
) -> Result<Target, RuleFault>
    ensures { Gives (λ target. target) result (names.target_of cat.now number named.now) }
{
    match named {
        Named::Index(index) => index_target(alloc, cat, number, index),
        Named::Table(name) => {
            let table = table_named(cat, number, name.as_slice())?;
            Ok(Target::Whole(table))
        }
        Named::Column(table, column) => column_target(cat, number, table, column),
    }
}

/// Whether a key list holds a column.
fn has_key(keys: &[u16], column: u16) -> bool
    ensures { result ≡ list_any (λ key. key == column) keys.now }
{
    keys.iter().any(|key| *key == column)
}

/// Whether two key lists are the same.
fn is_same_list(keys: &[u16], others: &[u16]) -> bool
    ensures { result ≡ names.is_same_list keys.now others.now }
{
    keys == others
}

/// Whether an index is one that a rule is about.
pub fn meets(target: &Target, shape: &IndexShape) -> bool
    ensures { result ≡ names.meets target.now shape.now }
{
    match target {
        Target::Keys(table, keys, clustered) => {
            shape.table == *table
                && is_same_list(shape.keys.as_slice(), keys.as_slice())
                && shape.clustered == *clustered
        }
        Target::Whole(table) => shape.table == *table,
        Target::Holding(table, column) => {
            shape.table == *table && has_key(shape.keys.as_slice(), *column)
        }
    }
}
