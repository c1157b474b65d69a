//! Catalogues and faults as short texts.
//!
//! A catalogue is a line each for its rates and for each table, behind which come the lines of its columns and indexes;
//! `~` ends a line. An index has its table and its keys by their numbers from 0.

use adv_base::{Catalogue, Column, Index, Table};
use catalogue::{CatFault, KeyPath};
use std::alloc::{AllocError, Global};

/// Writes a name.
fn push_name(alloc: Global, out: &mut String, name: &[u8]) -> Result<(), AllocError> {
    let name = String::from_utf8_lossy(alloc, name)?;
    write!(out, "{name}")
}

/// Writes a column.
fn push_column(alloc: Global, out: &mut String, column: &Column) -> Result<(), AllocError> {
    push_name(alloc, out, column.name.as_slice())?;
    write!(
        out,
        " {:?} {} {:?} {:?} {:?}",
        column.kind, column.width, column.distinct, column.low, column.high
    )?;
    for end in column.bounds.as_slice() {
        write!(out, " {end}")?;
    }
    out.push_str("~")
}

/// Writes an index.
fn push_index(alloc: Global, out: &mut String, index: &Index) -> Result<(), AllocError> {
    push_name(alloc, out, index.name.as_slice())?;
    let shape = &index.shape;
    write!(out, " of {}:", shape.table)?;
    for key in shape.keys.as_slice() {
        write!(out, " {key}")?;
    }
    if shape.unique {
        out.push_str(" unique")?;
    }
    if shape.clustered {
        out.push_str(" clustered")?;
    }
    out.push_str("~")
}

/// Writes a table.
fn push_table(alloc: Global, out: &mut String, table: &Table) -> Result<(), AllocError> {
    push_name(alloc, out, table.name.as_slice())?;
    write!(out, " {} {}", table.rows, table.pages)?;
    if table.may_cluster {
        out.push_str(" may cluster")?;
    }
    out.push_str("~")?;
    for column in table.columns.as_slice() {
        push_column(alloc, out, column)?;
    }
    for index in table.indexes.as_slice() {
        push_index(alloc, out, index)?;
    }
    Ok(())
}

/// A catalogue as a text.
pub fn shown(alloc: Global, catalogue: &Catalogue) -> Result<String, AllocError> {
    let rates = catalogue.rates;
    let mut out = format!(in alloc;
        "{} {} {} {} {} {} {}~",
        rates.seq_page,
        rates.rand_page,
        rates.row_cpu,
        rates.sort_cpu,
        rates.merge_cpu,
        rates.hash_cpu,
        rates.group_cpu
    )?;
    for table in catalogue.tables.as_slice() {
        push_table(alloc, &mut out, table)?;
    }
    Ok(out)
}

/// What is wrong at a path.
fn at(alloc: Global, what: &str, path: KeyPath) -> Result<String, AllocError> {
    format!(in alloc;
        "{what} {} {:?} {} {:?} {}",
        path.table, path.part, path.item, path.field, path.at
    )
}

/// A fault as a text.
pub fn fault_shown(alloc: Global, fault: CatFault) -> Result<String, AllocError> {
    match fault {
        CatFault::Memory | CatFault::NotToml => format!(in alloc; "{fault}"),
        CatFault::Missing(path) => at(alloc, "missing", path),
        CatFault::WrongKind(path) => at(alloc, "wrong kind", path),
        CatFault::OutOfRange(path) => at(alloc, "out of range", path),
        CatFault::TwoNames(path) => at(alloc, "name twice", path),
        CatFault::UnknownName(path) => at(alloc, "unknown name", path),
    }
}
