//! The paths of keys.
ghost use Rattle.std.specs.Prelude.{◌≡◌};
ghost use Rattle.catalogue.specs.Paths as paths;

use crate::fault::{KeyField, KeyPart, KeyPath};

/// The path of a key of the document itself.
pub fn whole_path(field: KeyField) -> KeyPath
    ensures { result ≡ paths.whole_path field }
{
    KeyPath {
        table: 0,
        part: KeyPart::Whole,
        item: 0,
        field,
        at: 0,
    }
}

/// The path of a rate, or of the table of rates.
pub fn rates_path(field: KeyField) -> KeyPath
    ensures { result ≡ paths.rates_path field }
{
    KeyPath {
        table: 0,
        part: KeyPart::Rates,
        item: 0,
        field,
        at: 0,
    }
}

/// The path of a key of the table of this number, or of the table.
pub fn table_path(table: u32, field: KeyField) -> KeyPath
    ensures { result ≡ paths.table_path table field }
{
    KeyPath {
        table,
        part: KeyPart::Table,
        item: 0,
        field,
        at: 0,
    }
}

/// The path of a key of a table's column of this number, or of the column.
pub fn column_path(table: u32, column: u32, field: KeyField) -> KeyPath
    ensures { result ≡ paths.column_path table column field }
{
    KeyPath {
        table,
        part: KeyPart::Column,
        item: column,
        field,
        at: 0,
    }
}

/// The path of one end of a column's histogram.
pub fn bound_path(table: u32, column: u32, at: u32) -> KeyPath
    ensures { result ≡ paths.bound_path table column at }
{
    KeyPath {
        table,
        part: KeyPart::Column,
        item: column,
        field: KeyField::Bounds,
        at,
    }
}

/// The path of a key of a table's index of this number, or of the index.
pub fn index_path(table: u32, index: u32, field: KeyField) -> KeyPath
    ensures { result ≡ paths.index_path table index field }
{
    KeyPath {
        table,
        part: KeyPart::Index,
        item: index,
        field,
        at: 0,
    }
}

/// The path of one key column of an index.
pub fn key_column_path(table: u32, index: u32, at: u32) -> KeyPath
    ensures { result ≡ paths.key_column_path table index at }
{
    KeyPath {
        table,
        part: KeyPart::Index,
        item: index,
        field: KeyField::Keys,
        at,
    }
}
