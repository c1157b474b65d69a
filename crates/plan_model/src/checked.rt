//! Tasks from parts of which nothing is known.
ghost use Rattle.std.specs.Prelude.{◌≡◌, ◌↔◌, ◌<◌, ◌≤◌, ◌^◌, IsTrue, All, map, not, length};
ghost use Rattle.std.specs.List.{list_all};
ghost use Rattle.std.specs.Option.{ForSome, IfSome, IsNone};
ghost use Rattle.adv_base.specs.declared.workload.parts.Item.TheVariants.{Up};
ghost use Rattle.adv_base.specs.Items as rule;
ghost use Rattle.adv_base.specs.Sets.{IsConnected};
ghost use Rattle.adv_base.specs.declared.limits.TheConstants.{MOST_SLOTS};
ghost use Rattle.adv_base.specs.Limits.Blocks.{ListLimits, GroupLimits};
ghost use Rattle.plan_model.specs.Limits.Tasks as tasks;

use crate::edge::TaskEdge;
use crate::order::are_joined;
use crate::task::Task;
use adv_base::limits::{MOST_COLUMNS, MOST_ROWS, MOST_SLOTS};
use adv_base::{Item, List, Rates, all_slots};

fn is_need(need: Option<Item>, slot: u8, column: u16) -> bool
    ensures { IsTrue result ↔ ForSome need (λ item. item ≡ Up slot column) }
{
    match need {
        None => true,
        Some(item) => item == Item::Up { slot, column },
    }
}

fn is_edge(edge: &TaskEdge, slots: u8) -> bool
    ensures { IsTrue result ↔ tasks.EdgeLimits slots edge.now }
{
    if edge.left >= slots || edge.right >= slots || edge.left == edge.right {
        return false;
    }
    if edge.left_column as usize >= MOST_COLUMNS || edge.right_column as usize >= MOST_COLUMNS {
        return false;
    }
    is_need(edge.left_need, edge.left, edge.left_column)
        && is_need(edge.right_need, edge.right, edge.right_column)
}

fn are_edges(edges: &[TaskEdge], slots: u8) -> bool
    ensures { IsTrue result ↔ All (tasks.EdgeLimits slots) edges.now }
{
    edges.iter().all(|edge| is_edge(edge, slots))
}

fn is_row_count(rows: u64) -> bool
    ensures { IsTrue result ↔ tasks.RowLimits rows }
{
    rows >= 1 && rows <= MOST_ROWS
}

fn are_row_counts(rows: &[u64]) -> bool
    ensures { IsTrue result ↔ All tasks.RowLimits rows.now }
{
    rows.iter().all(|rows| is_row_count(*rows))
}

fn is_numbered(item: &Item) -> bool
    ensures { result ≡ tasks.is_numbered item.now }
{
    match item {
        Item::Up { column, .. } => (*column as usize) < MOST_COLUMNS,
        Item::Down { column, .. } => (*column as usize) < MOST_COLUMNS,
        Item::Made(_) => true,
    }
}

fn are_numbered(items: &[Item]) -> bool
    ensures { IsTrue result ↔ tasks.AreNumbered items.now }
{
    items.iter().all(is_numbered)
}

fn is_within(item: &Item, slots: u8) -> bool
    ensures { result ≡ rule.is_within_slots slots item.now }
{
    match item {
        Item::Up { slot, .. } => *slot < slots,
        Item::Down { slot, .. } => *slot < slots,
        Item::Made(_) => true,
    }
}

fn are_within(items: &[Item], slots: u8) -> bool
    ensures { IsTrue result ↔ rule.AreWithinSlots slots items.now }
{
    items.iter().all(|item| is_within(item, slots))
}

fn is_upward(item: &Item) -> bool
    ensures { result ≡ rule.is_upward item.now }
{
    match item {
        Item::Up { .. } => true,
        Item::Down { .. } => false,
        Item::Made(_) => false,
    }
}

fn are_upward(items: &[Item]) -> bool
    ensures { IsTrue result ↔ rule.AreUpward items.now }
{
    items.iter().all(is_upward)
}

/// Whether two items are the same column, whichever way each goes.
fn is_same_column(one: &Item, other: &Item) -> bool
    ensures { result ≡ rule.is_same_column one.now other.now }
{
    match one {
        Item::Up { slot, column } => is_column(other, *slot, *column),
        Item::Down { slot, column } => is_column(other, *slot, *column),
        Item::Made(_) => false,
    }
}

fn is_column(item: &Item, own_slot: u8, own_column: u16) -> bool
    ensures { result ≡ rule.is_same_column (Up own_slot own_column) item.now }
{
    match item {
        Item::Up { slot, column } => own_slot == *slot && own_column == *column,
        Item::Down { slot, column } => own_slot == *slot && own_column == *column,
        Item::Made(_) => false,
    }
}

fn is_apart_from(one: &Item, items: &[Item]) -> bool
    ensures { result ≡ list_all (λ item. not (rule.is_same_column one.now item)) items.now }
{
    items.iter().all(|item| !is_same_column(one, item))
}

/// Whether no column stands twice.
pub fn are_apart(items: &[Item]) -> bool
    ensures { IsTrue result ↔ rule.AreApart items.now }
{
    match items.split_first() {
        None => true,
        Some((first, rest)) => is_apart_from(first, rest) && are_apart(rest),
    }
}

fn is_list(items: &[Item], slots: u8) -> bool
    ensures { IsTrue result ↔ ListLimits slots items.now }
{
    are_within(items, slots) && are_apart(items)
}

fn is_group(items: &[Item], slots: u8) -> bool
    ensures { IsTrue result ↔ GroupLimits slots items.now }
{
    is_list(items, slots) && are_upward(items)
}

/// Whether each cut of the slots in two is crossed.
fn is_connected(edges: &[TaskEdge], slots: u8) -> bool
    requires { slots ≤ MOST_SLOTS }
    ensures { IsTrue result ↔ IsConnected slots (map tasks.ends edges.now) }
{
    let all = all_slots(slots);
    for part in 1..all {
        if part & (all - part) == 0 && !are_joined(edges, part, all - part) {
            return false;
        }
    }
    true
}

/// Whether edges connect slots of a task, of which there are 1 to 8.
fn are_tied(edges: &[TaskEdge], slots: u8) -> bool
    ensures yes { IsTrue result → (1 ≤ slots) × (slots ≤ MOST_SLOTS) × All (tasks.EdgeLimits slots) edges.now × (length edges.now < 2 ^ 32) × IsConnected slots (map tasks.ends edges.now) }
    ensures no { (1 ≤ slots) × (slots ≤ MOST_SLOTS) × All (tasks.EdgeLimits slots) edges.now × (length edges.now < 2 ^ 32) × IsConnected slots (map tasks.ends edges.now) → IsTrue result }
{
    if slots < 1 || slots as usize > MOST_SLOTS || edges.len() >= 4294967296 {
        return false;
    }
    are_edges(edges, slots) && is_connected(edges, slots)
}

/// Whether there are rows for each set of slots.
fn are_rows(rows: &[u64], slots: u8) -> bool
    requires { slots ≤ MOST_SLOTS }
    ensures { IsTrue result ↔ ((length rows.now ≡ 2 ^ slots) × All tasks.RowLimits rows.now) }
{
    rows.len() == 1 << slots && are_row_counts(rows)
}

/// Whether there is no list to group by, or a fitting one.
fn may_group(group: &Option<List<Item>>, slots: u8) -> bool
    ensures { IsTrue result ↔ (ForSome group.now (GroupLimits slots) × ForSome group.now tasks.AreNumbered) }
{
    match group {
        None => true,
        Some(items) => is_group(items.as_slice(), slots) && are_numbered(items.as_slice()),
    }
}

/// Whether a list may be ordered by.
fn may_order(order: &[Item], slots: u8) -> bool
    ensures { IsTrue result ↔ (ListLimits slots order.now × tasks.AreNumbered order.now) }
{
    is_list(order, slots) && are_numbered(order)
}

/// Whether the parts keep the limits of a task.
fn are_parts(
    slots: u8,
    edges: &[TaskEdge],
    rows: &[u64],
    group: &Option<List<Item>>,
    group_rows: u64,
    order: &[Item],
) -> bool
    ensures { IsTrue result ↔ tasks.TaskLimits slots edges.now rows.now group.now group_rows order.now }
{
    if !are_tied(edges, slots) {
        return false;
    }
    if !are_rows(rows, slots) || !is_row_count(group_rows) {
        return false;
    }
    may_group(group, slots) && may_order(order, slots)
}

/// A task of these parts, where they keep the limits of tasks; None exactly where they don't. A block's task needs no such
/// test. It takes no memory.
pub fn checked_task(
    slots: u8,
    edges: List<TaskEdge>,
    rows: List<u64>,
    group: Option<List<Item>>,
    group_rows: u64,
    order: List<Item>,
    rates: Rates,
) -> Option<Task>
    ensures made { IfSome result (λ task. (task.slots ≡ slots) × (task.edges ≡ edges) × (task.rows ≡ rows) × (task.group ≡ group) × (task.group_rows ≡ group_rows) × (task.order ≡ order) × (task.rates ≡ rates)) }
    ensures refused { IsNone result ↔ ¬ (tasks.TaskLimits slots edges rows group group_rows order) }
{
    if !are_parts(
        slots,
        edges.as_slice(),
        rows.as_slice(),
        &group,
        group_rows,
        order.as_slice(),
    ) {
        return None;
    }
    Some(Task {
        slots,
        edges,
        rows,
        group,
        group_rows,
        order,
        rates,
    })
}
