//! Bound statements as short texts.
//!
//! A statement is its weight and its kind, and then, each behind a space: each slot as `table:name(needed columns)`,
//! each predicate as `slot.column:test`, each edge as `slot.column=slot.column`, and `group(..)` and `order(..)` with
//! their items, where there is such a list. An item is `slot.column`, downwards with a `-`, or `#number` of a made one.

use adv_base::{Block, Edge, Item, List, Pred, Slot, Statement, Work};
use std::alloc::{AllocError, Global};

/// Writes numbers with commas between them.
fn push_numbers(out: &mut String, numbers: &[u16]) -> Result<(), AllocError> {
    for (place, number) in numbers.iter().enumerate() {
        if place > 0 {
            out.push_str(",")?;
        }
        write!(out, "{number}")?;
    }
    Ok(())
}

/// Writes a slot.
fn push_slot(alloc: Global, out: &mut String, slot: &Slot) -> Result<(), AllocError> {
    let name = String::from_utf8_lossy(alloc, slot.name.as_slice())?;
    write!(out, " {}:{name}(", slot.table)?;
    push_numbers(out, slot.needed.as_slice())?;
    out.push_str(")")
}

/// Writes a predicate.
fn push_pred(out: &mut String, pred: &Pred) -> Result<(), AllocError> {
    write!(out, " {}.{}:{:?}", pred.slot, pred.column, pred.test)
}

/// Writes an edge.
fn push_edge(out: &mut String, edge: &Edge) -> Result<(), AllocError> {
    write!(
        out,
        " {}.{}={}.{}",
        edge.left, edge.left_column, edge.right, edge.right_column
    )
}

/// Writes an item.
fn push_item(out: &mut String, item: Item) -> Result<(), AllocError> {
    match item {
        Item::Up { slot, column } => write!(out, "{slot}.{column}"),
        Item::Down { slot, column } => write!(out, "-{slot}.{column}"),
        Item::Made(number) => write!(out, "#{number}"),
    }
}

/// Writes items with commas between them, behind what they are for.
fn push_items(out: &mut String, use_: &str, items: &[Item]) -> Result<(), AllocError> {
    write!(out, " {use_}(")?;
    for (place, item) in items.iter().enumerate() {
        if place > 0 {
            out.push_str(",")?;
        }
        push_item(out, *item)?;
    }
    out.push_str(")")
}

/// Writes the lists of a block.
fn push_lists(
    out: &mut String,
    group: &Option<List<Item>>,
    order: &List<Item>,
) -> Result<(), AllocError> {
    if let Some(items) = group {
        push_items(out, "group", items.as_slice())?;
    }
    if !order.is_empty() {
        push_items(out, "order", order.as_slice())?;
    }
    Ok(())
}

/// Writes a block.
fn push_block(alloc: Global, out: &mut String, block: &Block) -> Result<(), AllocError> {
    for slot in block.slots.as_slice() {
        push_slot(alloc, out, slot)?;
    }
    for pred in block.preds.as_slice() {
        push_pred(out, pred)?;
    }
    for edge in block.edges.as_slice() {
        push_edge(out, edge)?;
    }
    push_lists(out, &block.group, &block.order)
}

/// Writes what a statement does.
fn push_work(alloc: Global, out: &mut String, work: &Work) -> Result<(), AllocError> {
    match work {
        Work::Select(block) => {
            out.push_str("select")?;
            push_block(alloc, out, block)
        }
        Work::Update(block, columns) => {
            out.push_str("update(")?;
            push_numbers(out, columns.as_slice())?;
            out.push_str(")")?;
            push_block(alloc, out, block)
        }
        Work::Delete(block) => {
            out.push_str("delete")?;
            push_block(alloc, out, block)
        }
        Work::Insert { table, rows } => write!(out, "insert {table} rows {rows}"),
    }
}

/// Statements as texts, with `; ` between them.
pub fn shown(alloc: Global, statements: &[Statement]) -> Result<String, AllocError> {
    let mut out = String::new(alloc);
    for (place, statement) in statements.iter().enumerate() {
        if place > 0 {
            out.push_str("; ")?;
        }
        write!(out, "{} ", statement.weight)?;
        push_work(alloc, &mut out, &statement.work)?;
    }
    Ok(out)
}
