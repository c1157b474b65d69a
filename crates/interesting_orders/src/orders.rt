//! The orders of a slot, and how many choices of them there are.
ghost use Rattle.std.specs.Prelude.{◌≡◌, ◌+◌, ◌<◌, ◌≤◌, ◌^◌, ◌++◌, ◌∷◌, [], length, IfOk, fold};
ghost use Rattle.std.specs.Result.{OnOk};
ghost use Rattle.adv_base.specs.declared.limits.TheConstants.{MOST_COLUMNS};
ghost use Rattle.plan_model.specs.Limits.Tasks.{AreNumbered};
ghost use Rattle.plan_model.specs.Orders as interesting;
ghost use Rattle.interesting_orders.specs.inner.Marks.{add_order, AreMarks, IsEdge};

use crate::columns::{column_at, is_new_list, mark_column, mark_count};
use adv_base::limits::MOST_COLUMNS;
use adv_base::{Item, List, NoMemory};
use plan_model::{Task, TaskEdge};
use std::alloc::Global;

fn copied(alloc: Global, items: &[Item]) -> Result<List<Item>, NoMemory>
    ensures { IfOk result (λ list. list ≡ items.now) }
{
    Ok(List {
        items: Vec::from_slice(alloc, items)?,
    })
}

fn push_order(orders: &mut Vec<List<Item>>, order: List<Item>) -> Result<(), NoMemory>
    ensures { OnOk result (orders.new.items ≡ orders.old.items ++ order ∷ []) }
{
    orders.push(order)?;
    Ok(())
}

/// Pushes the order of an edge's column at the slot, where it is new.
fn push_column(
    alloc: Global,
    edge: &TaskEdge,
    slot: u8,
    seen: &mut [bool; MOST_COLUMNS],
    orders: &mut Vec<List<Item>>,
) -> Result<(), NoMemory>
    requires edge { IsEdge edge.now }
    requires marks { AreMarks slot seen.old orders.old.items }
    ensures orders { OnOk result (orders.new.items ≡ fold add_order orders.old.items (interesting.edge_orders slot edge.now)) }
    ensures marks { OnOk result (AreMarks slot seen.new orders.new.items) }
{
    let Some(column) = column_at(edge, slot) else {
        return Ok(());
    };
    if seen[column as usize] {
        return Ok(());
    }
    push_order(orders, copied(alloc, &[Item::Up { slot, column }])?)?;
    seen[column as usize] = true;
    Ok(())
}

/// Pushes a list, where it is of the slot alone and new.
fn push_list(
    alloc: Global,
    list: &[Item],
    slot: u8,
    seen: &[bool; MOST_COLUMNS],
    orders: &mut Vec<List<Item>>,
) -> Result<(), NoMemory>
    requires numbered { AreNumbered list.now }
    requires marks { AreMarks slot seen.now orders.old.items }
    ensures { OnOk result (orders.new.items ≡ fold add_order orders.old.items (interesting.own_list slot list.now)) }
{
    if is_new_list(list, slot, seen) {
        return push_order(orders, copied(alloc, list)?);
    }
    Ok(())
}

/// What operators above a slot may want of its order, as System R's and INUM's interesting orders: first nothing; then
/// for each edge with an end here, unless a literal binds its column, that column; last the list to group by, or without
/// groups the list to order by, if it has items and all are upward columns of this slot. Each comes once, where it is met
/// first. `NoMemory` is want of memory.
pub fn slot_orders(alloc: Global, task: &Task, slot: u8) -> Result<List<List<Item>>, NoMemory>
    requires { slot < task.now.slots }
    ensures { IfOk result (λ orders. orders ≡ interesting.interesting_orders task.now slot) }
{
    let mut orders = Vec::new(alloc);
    push_order(&mut orders, List::new(alloc))?;
    let mut seen = [false; MOST_COLUMNS];
    let edges = task.edges.as_slice();
    for edge in edges {
        push_column(alloc, edge, slot, &mut seen, &mut orders)?;
    }
    push_list(alloc, task.wanted_list(), slot, &seen, &mut orders)?;
    Ok(List { items: orders })
}

/// How many orders a slot has, of which there are at most three more than columns.
fn order_count(task: &Task, slot: u8) -> u64
    ensures exact { result ≡ length (interesting.interesting_orders task.now slot) }
    ensures few { result ≤ MOST_COLUMNS + 3 }
{
    let mut seen = [false; MOST_COLUMNS];
    let edges = task.edges.as_slice();
    for edge in edges {
        mark_column(edge, slot, &mut seen);
    }
    let columns = mark_count(&seen);
    if is_new_list(task.wanted_list(), slot, &seen) {
        columns + 2
    } else {
        columns + 1
    }
}

/// How many ways there are to give each slot one of its orders. No memory is taken.
pub fn combinations(task: &Task) -> u64
    ensures exact { result ≡ interesting.combinations task.now }
    ensures small { result < 2 ^ 63 }
{
    let mut product = 1;
    for slot in 0..task.slots {
        product *= order_count(task, slot);
    }
    product
}
