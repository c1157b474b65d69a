//! The task of a block.
ghost use Rattle.std.specs.Prelude.{◌≡◌, ◌≤◌, ◌^◌, [], IfOk, length, map, unwrap_or};
ghost use Rattle.adv_base.specs.Named.{NamesBlock};
ghost use Rattle.adv_base.specs.Rows as row;
ghost use Rattle.cardinality.specs.Tables.{HoldsRows};
ghost use Rattle.plan_model.specs.BlockTask as tasks;
ghost use Rattle.adv_base.specs.declared.limits.TheConstants.{MOST_ROWS};

use crate::predicates::is_bound;
use adv_base::{Block, Catalogue, Edge, Item, List, NoMemory};
use cardinality::{Rows, group_rows, rows_table};
use plan_model::{Task, TaskEdge};
use std::alloc::Global;

/// What a merge needs of a column of a slot: that its rows come by it, upwards, or nothing where it is bound.
fn need(block: &Block, slot: u8, column: u16) -> Option<Item>
    ensures { result ≡ tasks.need block.now slot column }
{
    if is_bound(block, slot, column) {
        None
    } else {
        Some(Item::Up { slot, column })
    }
}

/// An edge with what a merge needs of its sides.
fn edge_with_needs(block: &Block, edge: &Edge) -> TaskEdge
    ensures { result ≡ tasks.task_edge block.now edge.now }
{
    TaskEdge {
        left: edge.left,
        left_column: edge.left_column,
        left_need: need(block, edge.left, edge.left_column),
        right: edge.right,
        right_column: edge.right_column,
        right_need: need(block, edge.right, edge.right_column),
    }
}

/// The block's edges, each with what a merge needs.
fn task_edges(alloc: Global, block: &Block) -> Result<Vec<TaskEdge>, NoMemory>
    ensures { IfOk result (λ edges. edges.items ≡ map (tasks.task_edge block.now) block.now.edges) }
{
    let mut edges = Vec::new(alloc);
    for edge in block.edges.items.iter() {
        edges.push(edge_with_needs(block, edge))?;
    }
    Ok(edges)
}

/// A copy of a list of items.
fn copied(alloc: Global, items: &List<Item>) -> Result<List<Item>, NoMemory>
    ensures { IfOk result (λ list. list ≡ items.now) }
{
    let items = Vec::from_slice(alloc, items.as_slice())?;
    Ok(List { items })
}

/// A copy of the list to group by, where the block groups.
fn copied_group(alloc: Global, group: &Option<List<Item>>) -> Result<Option<List<Item>>, NoMemory>
    ensures { IfOk result (λ list. list ≡ group.now) }
{
    match group {
        None => Ok(None),
        Some(items) => Ok(Some(copied(alloc, items)?)),
    }
}

/// The rows of the block's groups, as if by no column where it doesn't group.
fn rows_of_groups(cat: &Catalogue, block: &Block, rows: &Rows) -> u64
    requires named { NamesBlock cat.now block.now }
    requires table { HoldsRows cat.now block.now (2 ^ length block.now.slots) rows.now.of }
    ensures exact { result ≡ row.group_rows cat.now block.now (unwrap_or block.now.group []) }
    ensures least { 1 ≤ result }
    ensures most { result ≤ MOST_ROWS }
{
    match &block.group {
        None => group_rows(cat, block, &[], rows),
        Some(items) => group_rows(cat, block, items.as_slice(), rows),
    }
}

/// What a planner gets of a block: its slots and edges, the rows of each set of slots, the lists to group and to order
/// by with the rows of the groups, and the catalogue's rates.
pub fn task(alloc: Global, cat: &Catalogue, block: &Block) -> Result<Task, NoMemory>
    requires { NamesBlock cat.now block.now }
    ensures { IfOk result (tasks.IsTaskOf cat.now block.now) }
{
    let rows = rows_table(alloc, cat, block)?;
    let edges = task_edges(alloc, block)?;
    let group = copied_group(alloc, &block.group)?;
    let order = copied(alloc, &block.order)?;
    let group_rows = rows_of_groups(cat, block, &rows);
    Ok(Task {
        slots: block.slots.len() as u8,
        edges: List { items: edges },
        rows: rows.of,
        group,
        group_rows,
        order,
        rates: cat.rates,
    })
}
