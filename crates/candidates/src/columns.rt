//! The columns of a slot that a statement tests, joins, groups or orders by, or needs.
ghost use Rattle.std.specs.Prelude.{◌≡◌, OnOk, IfOk, map, filter};
ghost use Rattle.std.specs.List.{filter_map, range_with_len};
ghost use Rattle.candidates.specs.Columns as columns;
ghost use Rattle.adv_base.specs.Predicates as predicates;
ghost use Rattle.adv_base.specs.Lookups.{column_count};

use adv_base::{Block, Catalogue, Edge, Item, Pred, Slot, is_own_list, table_at};
use std::alloc::{AllocError, Global};

/// Whether a column stands in a list.
fn has_column(keys: &[u16], column: u16) -> bool
    ensures { result ≡ columns.has_column keys.now column }
{
    keys.iter().any(|key| column == *key)
}

/// Adds a column to a list, unless it stands there already.
fn add_column(keys: &mut Vec<u16>, column: u16) -> Result<(), AllocError>
    ensures { OnOk result (keys.new.items ≡ columns.with_column keys.old.items column) }
{
    if has_column(keys, column) {
        return Ok(());
    }
    keys.push(column)?;
    Ok(())
}

/// A list followed by another, whose columns are skipped where they stand there already.
pub(crate) fn joined(alloc: Global, keys: &[u16], more: &[u16]) -> Result<Vec<u16>, AllocError>
    ensures { IfOk result (λ list. list.items ≡ columns.joined keys.now more.now) }
{
    let mut list = Vec::from_slice(alloc, keys)?;
    for column in more {
        add_column(&mut list, *column)?;
    }
    Ok(list)
}

/// The columns of the predicates with equality or IN on a slot, as they are written.
fn point_tested(alloc: Global, preds: &[Pred], slot: u8) -> Result<Vec<u16>, AllocError>
    ensures { IfOk result (λ list. list.items ≡ map (λ pred. pred.column) (filter (columns.is_slot_pred predicates.is_point slot) preds.now)) }
{
    preds
        .iter()
        .filter(|pred| pred.slot == slot && pred.test.is_point())
        .map(|pred| pred.column)
        .collect(alloc)
}

/// The columns of a slot with equality or IN, each once.
#[tactic(auto, unfolding(crate::specs::Columns::point_columns))]
pub(crate) fn point_columns(alloc: Global, block: &Block, slot: u8) -> Result<Vec<u16>, AllocError>
    ensures { IfOk result (λ list. list.items ≡ columns.point_columns block.now slot) }
{
    let tested = point_tested(alloc, block.preds.as_slice(), slot)?;
    joined(alloc, &[], &tested)
}

/// The columns of the predicates with a range test on a slot, as they are written.
fn range_tested(alloc: Global, preds: &[Pred], slot: u8) -> Result<Vec<u16>, AllocError>
    ensures { IfOk result (λ list. list.items ≡ map (λ pred. pred.column) (filter (columns.is_slot_pred predicates.is_range slot) preds.now)) }
{
    preds
        .iter()
        .filter(|pred| pred.slot == slot && pred.test.is_range())
        .map(|pred| pred.column)
        .collect(alloc)
}

/// The columns of a slot with a range test, each once.
#[tactic(auto, unfolding(crate::specs::Columns::range_columns))]
pub(crate) fn range_columns(alloc: Global, block: &Block, slot: u8) -> Result<Vec<u16>, AllocError>
    ensures { IfOk result (λ list. list.items ≡ columns.range_columns block.now slot) }
{
    let tested = range_tested(alloc, block.preds.as_slice(), slot)?;
    joined(alloc, &[], &tested)
}

/// The column of an edge at a slot.
fn edge_column(edge: &Edge, slot: u8) -> Option<u16>
    ensures { result ≡ columns.edge_column slot edge.now }
{
    if edge.left == slot {
        Some(edge.left_column)
    } else if edge.right == slot {
        Some(edge.right_column)
    } else {
        None
    }
}

/// The columns of edges at a slot, as they are written.
fn tied_columns(alloc: Global, edges: &[Edge], slot: u8) -> Result<Vec<u16>, AllocError>
    ensures { IfOk result (λ list. list.items ≡ filter_map (columns.edge_column slot) edges.now) }
{
    edges
        .iter()
        .filter_map(|edge| edge_column(edge, slot))
        .collect(alloc)
}

/// The columns of a slot that edges join, each once.
#[tactic(auto, unfolding(crate::specs::Columns::join_columns))]
pub(crate) fn join_columns(alloc: Global, block: &Block, slot: u8) -> Result<Vec<u16>, AllocError>
    ensures { IfOk result (λ list. list.items ≡ columns.join_columns block.now slot) }
{
    let tied = tied_columns(alloc, block.edges.as_slice(), slot)?;
    joined(alloc, &[], &tied)
}

/// The column of an upward item.
fn up_column(item: &Item) -> Option<u16>
    ensures { result ≡ columns.up_column item.now }
{
    match item {
        Item::Up { column, .. } => Some(*column),
        _ => None,
    }
}

/// The columns of the upward items of a list.
fn up_columns(alloc: Global, list: &[Item]) -> Result<Vec<u16>, AllocError>
    ensures { IfOk result (λ up. up.items ≡ filter_map columns.up_column list.now) }
{
    list.iter()
        .filter_map(|item| up_column(item))
        .collect(alloc)
}

/// The columns of a list that is the slot's own.
fn own_columns(alloc: Global, list: &[Item], slot: u8) -> Result<Vec<u16>, AllocError>
    ensures { IfOk result (λ own. own.items ≡ columns.own_columns slot list.now) }
{
    if !is_own_list(list, slot) {
        return Ok(Vec::new(alloc));
    }
    let up = up_columns(alloc, list)?;
    joined(alloc, &[], &up)
}

/// The list to group by, where it is the slot's own.
#[tactic(auto, unfolding(crate::specs::Columns::group_columns))]
pub(crate) fn group_columns(alloc: Global, block: &Block, slot: u8) -> Result<Vec<u16>, AllocError>
    ensures { IfOk result (λ own. own.items ≡ columns.group_columns block.now slot) }
{
    match &block.group {
        Some(list) => own_columns(alloc, list.as_slice(), slot),
        None => Ok(Vec::new(alloc)),
    }
}

/// The list to order by, where it is the slot's own.
#[tactic(auto, unfolding(crate::specs::Columns::order_columns))]
pub(crate) fn order_columns(alloc: Global, block: &Block, slot: u8) -> Result<Vec<u16>, AllocError>
    ensures { IfOk result (λ own. own.items ≡ columns.order_columns block.now slot) }
{
    own_columns(alloc, block.order.as_slice(), slot)
}

/// How many columns a table has; 0 where there is no such table.
fn column_count(cat: &Catalogue, table: u16) -> u16
    ensures { result ≡ column_count cat.now table }
{
    match table_at(cat, table) {
        Some(table) => table.columns.items.len() as u16,
        None => 0,
    }
}

/// Those of the first columns of a table that stand in a list, in catalogue order.
fn columns_among(alloc: Global, listed: &[u16], count: u16) -> Result<Vec<u16>, AllocError>
    ensures { IfOk result (λ list. list.items ≡ filter (columns.has_column listed.now) (range_with_len 0 count)) }
{
    (0..count)
        .filter(|column| has_column(listed, *column))
        .collect(alloc)
}

/// The needed columns of a slot in catalogue order.
#[tactic(auto, unfolding(crate::specs::Columns::needed_columns))]
pub(crate) fn needed_columns(
    alloc: Global,
    cat: &Catalogue,
    slot: &Slot,
) -> Result<Vec<u16>, AllocError>
    ensures { IfOk result (λ needed. needed.items ≡ columns.needed_columns cat.now slot.now) }
{
    columns_among(alloc, slot.needed.as_slice(), column_count(cat, slot.table))
}
