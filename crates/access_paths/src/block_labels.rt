//! The words by which the plans of a block are told.
ghost use Rattle.std.specs.Prelude.{◌≡◌, ◌++◌, ◌∷◌, ℕ, [], codes, decimal, length, map, IfOk, OnOk, Some, slice_index_or};
ghost use Rattle.adv_base.specs.Offers as ways;
ghost use Rattle.access_paths.specs.Labels as wording;
ghost use Rattle.access_paths.specs.inner.Paths as listed;

use crate::paths::{AccessPath, paths_on};
use adv_base::{
    Block, Catalogue, Config, IndexShape, List, Name, NoMemory, Slot, Table, push_decimal,
};
use plan_model::Labels;
use std::alloc::Global;

/// A name that begins with some words.
fn prefixed(alloc: Global, words: &[u8], name: &[u8]) -> Result<Name, NoMemory>
    ensures { IfOk result (λ made. made ≡ words.now ++ name.now) }
{
    let mut items = Vec::new(alloc);
    items.extend_from_slice(words)?;
    items.extend_from_slice(name)?;
    Ok(Name { items })
}

/// Puts a name at the end.
fn put(names: &mut Vec<Name>, name: Name) -> Result<(), NoMemory>
    ensures { OnOk result (names.new.items ≡ names.old.items ++ name ∷ []) }
{
    names.push(name)?;
    Ok(())
}

/// The visible name of each slot.
fn slot_names(alloc: Global, block: &Block) -> Result<List<Name>, NoMemory>
    ensures { IfOk result (λ names. names ≡ wording.slot_labels block.now) }
{
    let mut items = Vec::new(alloc);
    for slot in block.slots.items.iter() {
        put(&mut items, prefixed(alloc, &[], slot.name.as_slice())?)?;
    }
    Ok(List { items })
}

/// The names of a table's columns.
fn column_names(alloc: Global, table: &Table) -> Result<List<Name>, NoMemory>
    ensures { IfOk result (λ names. names ≡ wording.column_names (Some table.now)) }
{
    let mut items = Vec::new(alloc);
    for column in table.columns.items.iter() {
        put(&mut items, prefixed(alloc, &[], column.name.as_slice())?)?;
    }
    Ok(List { items })
}

/// The words of reading through the candidate of a number.
fn candidate_words(alloc: Global, number: u16) -> Result<Name, NoMemory>
    ensures { IfOk result (λ name. name ≡ codes "candidate " ++ decimal number) }
{
    let mut items = Vec::new(alloc);
    items.extend_from_slice(b"candidate ")?;
    push_decimal(alloc, &mut items, number as u128)?;
    Ok(Name { items })
}

/// The words of reading along a path: `heap`, `index NAME` or `candidate N`.
fn path_words(alloc: Global, path: AccessPath<'_>) -> Result<Name, NoMemory>
    ensures { IfOk result (λ name. name ≡ wording.path_words (listed.as_path path.entry)) }
{
    match path {
        AccessPath::Heap => prefixed(alloc, b"heap", &[]),
        AccessPath::Existing(index) => prefixed(alloc, b"index ", index.name.as_slice()),
        AccessPath::Candidate(number, _) => candidate_words(alloc, number),
    }
}

/// The words of reading along each path.
fn words_of_paths(alloc: Global, paths: &[AccessPath<'_>]) -> Result<List<Name>, NoMemory>
    ensures { IfOk result (λ names. names ≡ map wording.path_words (listed.as_paths paths.now)) }
{
    let mut items = Vec::new(alloc);
    for path in paths {
        put(&mut items, path_words(alloc, *path)?)?;
    }
    Ok(List { items })
}

/// The names of the columns of a slot's table; none where the catalogue lacks the table.
fn slot_columns(alloc: Global, cat: &Catalogue, slot: &Slot) -> Result<List<Name>, NoMemory>
    ensures { IfOk result (λ names. names ≡ wording.slot_columns cat.now slot.now) }
{
    match cat.tables.as_slice().get(slot.table as usize) {
        Some(table) => column_names(alloc, table),
        None => Ok(List::new(alloc)),
    }
}

/// The words of each way to read a slot; none where the catalogue lacks the table.
fn slot_words(
    alloc: Global,
    cat: &Catalogue,
    slot: &Slot,
    shapes: &[IndexShape],
    config: &Config,
) -> Result<List<Name>, NoMemory>
    ensures { IfOk result (λ names. names ≡ wording.slot_words cat.now shapes.now config.now slot.now) }
{
    match cat.tables.as_slice().get(slot.table as usize) {
        Some(table) => {
            let paths = paths_on(alloc, slot.table, table, shapes, config)?;
            words_of_paths(alloc, paths.as_slice())
        }
        None => Ok(List::new(alloc)),
    }
}

/// For each slot, the names of its columns.
fn columns_of_slots(
    alloc: Global,
    cat: &Catalogue,
    block: &Block,
) -> Result<List<List<Name>>, NoMemory>
    ensures { IfOk result (λ columns. columns ≡ wording.column_labels cat.now block.now) }
{
    let mut items = Vec::new(alloc);
    for slot in block.slots.items.iter() {
        let columns = slot_columns(alloc, cat, slot)?;
        items.push(columns)?;
    }
    Ok(List { items })
}

/// For each slot, the words of each way to read it.
fn words_of_slots(
    alloc: Global,
    cat: &Catalogue,
    block: &Block,
    shapes: &[IndexShape],
    config: &Config,
) -> Result<List<List<Name>>, NoMemory>
    ensures { IfOk result (λ names. names ≡ wording.offer_labels cat.now block.now shapes.now config.now) }
{
    let mut items = Vec::new(alloc);
    for slot in block.slots.items.iter() {
        let words = slot_words(alloc, cat, slot, shapes, config)?;
        items.push(words)?;
    }
    Ok(List { items })
}

/// The words by which the plans of a block are told under a configuration: the visible name of each slot, the names of
/// its columns, and for each of its offers `heap` for the whole table, `index NAME` for an index that exists, or
/// `candidate N` for a candidate by its number from 1, in the order of the offers.
pub fn labels(
    alloc: Global,
    cat: &Catalogue,
    block: &Block,
    shapes: &[IndexShape],
    config: &Config,
) -> Result<Labels, NoMemory>
    ensures slots { IfOk result (λ l. l.slots ≡ wording.slot_labels block.now) }
    ensures columns { IfOk result (λ l. l.columns ≡ wording.column_labels cat.now block.now) }
    ensures offers { IfOk result (λ l. l.offers ≡ wording.offer_labels cat.now block.now shapes.now config.now) }
    ensures counts { IfOk result (λ l. (s : ℕ) → length (slice_index_or l.offers s []) ≡ length (ways.offers cat.now block.now shapes.now config.now s)) }
{
    Ok(Labels {
        slots: slot_names(alloc, block)?,
        columns: columns_of_slots(alloc, cat, block)?,
        offers: words_of_slots(alloc, cat, block, shapes, config)?,
    })
}
