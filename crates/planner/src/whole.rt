//! What stands above the joins: the group step and the final sort.
ghost use Rattle.std.specs.Prelude.{◌≡◌, ◌+◌, ◌*◌, ◌<◌, ◌≤◌, length};
ghost use Rattle.plan_model.specs.Plans.{body_sorts};
ghost use Rattle.adv_base.specs.Sets.{all_slots};
ghost use Rattle.plan_model.specs.Costs.{rows_in};
ghost use Rattle.planner.specs.Cells.{row_of};
ghost use Rattle.planner.specs.Rows.{IsCapped, width, sets_of};
ghost use Rattle.planner.specs.inner.Shapes as shapes;

use crate::cell::{Cell, any_of, cost_of};
use crate::front::has_front;
use crate::row::row_in;
use crate::ways::Ways;
use adv_base::Item;
use plan_model::{GroupStep, Task, rows_of, sort_price};

/// A whole plan without its body: the front that the body serves, the steps above it, and what all costs.
#[derive(Clone, Copy)]
pub(crate) struct Shape {
    pub cost: u128,
    pub front: usize,
    pub group: GroupStep,
    pub final_sort: bool,
}

/// The cheaper of two.
fn cheaper(a: Shape, b: Shape) -> Shape
    ensures { result ≡ shapes.cheaper a b }
{
    if b.cost < a.cost { b } else { a }
}

/// Whether a list is empty.
pub fn is_nil(order: &[Item]) -> bool
    ensures { result ≡ shapes.is_nil order.now }
{
    order.is_empty()
}

/// What a final sort of rows costs, where there is one.
pub fn final_cost(task: &Task, rows: u64, sorts: bool) -> u128
    requires some { 1 ≤ rows }
    requires most { rows ≤ 1000000000000 }
    ensures exact { result ≡ shapes.final_cost task.now rows sorts }
    ensures few { result ≤ 64000000000000000000 }
{
    if sorts { sort_price(task, rows) } else { 0 }
}

/// The body in order, or sorted at the end.
fn ungrouped(task: &Task, row: &[Cell], rows: u64) -> Shape
    requires wide { 2 ≤ length row.now }
    requires capped { IsCapped row.now }
    requires some { 1 ≤ rows }
    requires most { rows ≤ 1000000000000 }
    ensures { result ≡ shapes.ungrouped_shape task.now row.now rows }
{
    if is_nil(task.order.as_slice()) {
        return Shape {
            cost: cost_of(row, 0),
            front: 0,
            group: GroupStep::Nothing,
            final_sort: false,
        };
    }
    let ordered = Shape {
        cost: cost_of(row, 1),
        front: 1,
        group: GroupStep::Nothing,
        final_sort: false,
    };
    let sorted = Shape {
        cost: cost_of(row, 0) + sort_price(task, rows),
        front: 0,
        group: GroupStep::Nothing,
        final_sort: true,
    };
    cheaper(ordered, sorted)
}

/// Groups of a sorted body.
fn sorted_group(task: &Task, group: &[Item], row: &[Cell], rows: u64) -> Shape
    requires wide { 2 ≤ length row.now }
    requires capped { IsCapped row.now }
    requires most { rows ≤ 1000000000000 }
    ensures { result ≡ shapes.sorted_shape task.now group.now row.now rows }
{
    let final_sort = !has_front(group, task.order.as_slice());
    let grouping = task.rates.group_cpu as u128 * rows as u128;
    let cost = any_of(row, 1) + grouping + final_cost(task, task.group_rows, final_sort);
    Shape {
        cost,
        front: 1,
        group: GroupStep::Sorted,
        final_sort,
    }
}

/// Groups by hashing.
fn hashed_group(task: &Task, row: &[Cell], rows: u64) -> Shape
    requires wide { 2 ≤ length row.now }
    requires capped { IsCapped row.now }
    requires most { rows ≤ 1000000000000 }
    ensures { result ≡ shapes.hashed_shape task.now row.now rows }
{
    let final_sort = !is_nil(task.order.as_slice());
    let grouping = 2 * (task.rates.hash_cpu as u128 * rows as u128);
    let cost = cost_of(row, 0) + grouping + final_cost(task, task.group_rows, final_sort);
    Shape {
        cost,
        front: 0,
        group: GroupStep::Hashed,
        final_sort,
    }
}

/// The cheapest whole plan over the row of all slots, whose rows are given.
pub(crate) fn shape_of(task: &Task, row: &[Cell], rows: u64) -> Shape
    requires wide { 2 ≤ length row.now }
    requires capped { IsCapped row.now }
    requires some { 1 ≤ rows }
    requires most { rows ≤ 1000000000000 }
    ensures { result ≡ shapes.least_shape task.now.group task.now row.now rows }
{
    match &task.group {
        None => ungrouped(task, row, rows),
        Some(group) => {
            let sorted = sorted_group(task, group.as_slice(), row, rows);
            let hashed = hashed_group(task, row, rows);
            cheaper(sorted, hashed)
        }
    }
}

/// The cheapest whole plan over a table of all sets.
pub(crate) fn least_shape(ways: &Ways, cells: &[Cell]) -> Shape
    requires whole { length cells.now ≡ sets_of ways.now * width ways.now }
    requires capped { IsCapped (row_of (width ways.now) cells.now (all_slots ways.now.task.now.slots)) }
    ensures { result ≡ shapes.least_shape ways.now.task.now.group ways.now.task.now (row_of (width ways.now) cells.now (all_slots ways.now.task.now.slots)) (rows_in ways.now.task.now (all_slots ways.now.task.now.slots)) }
{
    let full = ways.task.rows.len() - 1;
    shape_of(
        ways.task,
        row_in(ways, cells, full),
        rows_of(ways.task, full),
    )
}

/// Whether a sort may stand at the top of the body.
pub(crate) fn sorts_body(group: GroupStep) -> bool
    ensures { result ≡ body_sorts group }
{
    match group {
        GroupStep::Nothing => false,
        GroupStep::Sorted => true,
        GroupStep::Hashed => false,
    }
}
