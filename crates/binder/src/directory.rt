//! A catalogue with its tables and columns found by name.
ghost use Rattle.std.specs.Prelude.{◌≡◌, ◌<◌, length, IfOk, IfSome};
ghost use Rattle.binder.specs.Lookups.{IndexesTables, IndexesColumns, IndexesEach, table_number, column_of};

use crate::index::NameIndex;
use adv_base::{Catalogue, Column, Table};
use std::alloc::{AllocError, Global};

/// A catalogue with an index of its tables' names, and one of the column names of each table.
#[derive(Drop)]
pub struct Directory<'a> {
    pub cat: &'a Catalogue,
    pub tables: NameIndex,
    pub columns: Vec<NameIndex>,
    pub ghost tables_indexed: { IndexesTables cat.now.tables tables },
    pub ghost columns_indexed: { IndexesEach cat.now.tables columns.items },
}

/// An index of the tables' names. The number that is put last stays, so it is the first table of its name.
fn index_tables(alloc: Global, tables: &[Table]) -> Result<NameIndex, AllocError>
    ensures { IfOk result (IndexesTables tables.now) }
{
    let mut index = NameIndex::new(alloc);
    for number in (0..tables.len()).rev() {
        index.put(alloc, tables[number].name.as_slice(), number)?;
    }
    Ok(index)
}

/// An index of the columns' names.
fn index_columns(alloc: Global, columns: &[Column]) -> Result<NameIndex, AllocError>
    ensures { IfOk result (IndexesColumns columns.now) }
{
    let mut index = NameIndex::new(alloc);
    for number in (0..columns.len()).rev() {
        index.put(alloc, columns[number].name.as_slice(), number)?;
    }
    Ok(index)
}

/// An index of the column names of each table.
fn index_each(alloc: Global, tables: &[Table]) -> Result<Vec<NameIndex>, AllocError>
    ensures { IfOk result (λ indexes. IndexesEach tables.now indexes.items) }
{
    let mut indexes = Vec::new(alloc);
    for table in tables {
        indexes.push(index_columns(alloc, table.columns.as_slice())?)?;
    }
    Ok(indexes)
}

impl<'a> Directory<'a> {
    /// A catalogue with its indexes.
    pub fn new(alloc: Global, cat: &'a Catalogue) -> Result<Directory<'a>, AllocError>
        ensures { IfOk result (λ directory. directory.cat.now ≡ cat.now) }
    {
        let tables = index_tables(alloc, cat.tables.as_slice())?;
        let columns = index_each(alloc, cat.tables.as_slice())?;
        Ok(Directory {
            cat,
            tables,
            columns,
        })
    }

    /// The number of the table of a folded name.
    pub fn table(&self, word: &[u8]) -> Option<u16>
        ensures exact { result ≡ table_number self.now.cat.now.tables word.now }
        ensures within { IfSome result (λ t. t < length self.now.cat.now.tables) }
    {
        match self.tables.find(word) {
            Some(number) => Some(number as u16),
            None => None,
        }
    }

    /// The number of the column of a folded name in a table.
    pub fn column(&self, table: u16, word: &[u8]) -> Option<u16>
        ensures { result ≡ column_of self.now.cat.now.tables table word.now }
    {
        if table as usize >= self.columns.len() {
            return None;
        }
        match self.columns[table as usize].find(word) {
            Some(number) => Some(number as u16),
            None => None,
        }
    }
}
