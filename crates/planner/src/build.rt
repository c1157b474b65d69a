//! Plans of what made the costs of the table.
ghost use Rattle.std.specs.Prelude.{◌≡◌, ◌*◌, ◌<◌, IfOk, length, slice_index_or};
ghost use Rattle.planner.specs.declared.cell.TheConstants as constant;
ghost use Rattle.planner.specs.declared.front.Front.TheVariants as variant;
ghost use Rattle.planner.specs.Fronts.{front_order};
ghost use Rattle.planner.specs.Cells.{cell_at, row_of};
ghost use Rattle.planner.specs.Rows.{width, sets_of, order_of, AreRows, IsTable};
ghost use Rattle.planner.specs.inner.Built as built;

use crate::again::choice_of;
use crate::cell::{Cell, Choice};
use crate::front::Front;
use crate::row::row_in;
use crate::ways::Ways;
use adv_base::{Item, List};
use plan_model::{Offers, Plan};
use std::alloc::{AllocError, Global};

/// What a front asks for, as a list of its own.
fn order_of(alloc: Global, front: Front, list: &[Item]) -> Result<List<Item>, AllocError>
    ensures { IfOk result (λ order. order ≡ front_order list.now front) }
{
    let mut items = Vec::new(alloc);
    match front {
        Front::Any => {}
        Front::Listed => items.extend_from_slice(list)?,
        Front::Need(item) => items.push(item)?,
    }
    Ok(List { items })
}

/// A plan sorted by what a front asks for.
fn sort_plan(alloc: Global, front: Front, list: &[Item], input: Plan) -> Result<Plan, AllocError>
    ensures { IfOk result (λ plan. built.IsSortOf (front_order list.now front) input plan) }
{
    let order = order_of(alloc, front, list)?;
    let input = Box::new(alloc, input)?;
    Ok(Plan::Sort { order, input })
}

/// A merge of two plans.
fn merge_plan(alloc: Global, edge: u32, left: Plan, right: Plan) -> Result<Plan, AllocError>
    ensures { IfOk result (λ plan. built.IsMergeOf edge left right plan) }
{
    let left = Box::new(alloc, left)?;
    let right = Box::new(alloc, right)?;
    Ok(Plan::Merge { edge, left, right })
}

/// A hash join of two plans.
fn hash_plan(alloc: Global, left: Plan, right: Plan) -> Result<Plan, AllocError>
    ensures { IfOk result (λ plan. built.IsHashOf left right plan) }
{
    let left = Box::new(alloc, left)?;
    let right = Box::new(alloc, right)?;
    Ok(Plan::Hash { left, right })
}

/// The cell of a front in a set's row.
fn cell_of(ways: &Ways, cells: &[Cell], set: usize, front: usize) -> Cell
    requires whole { length cells.now ≡ sets_of ways.now * width ways.now }
    requires set_in { set < sets_of ways.now }
    requires front_in { front < width ways.now }
    ensures { result ≡ cell_at (row_of (width ways.now) cells.now set) front }
{
    row_in(ways, cells, set)[front]
}

/// A front by its number.
fn front_at(ways: &Ways, front: usize) -> Front
    requires { front < width ways.now }
    ensures { result ≡ slice_index_or ways.now.fronts.items front variant.Any }
{
    ways.fronts.as_slice()[front]
}

/// Whether a sort is the cheapest top of a cell's plan.
fn is_sorted(cell: Cell, sorts: bool) -> bool
    ensures { result ≡ built.is_sorted cell sorts }
{
    sorts && cell.any != cell.cost
}

/// A cheapest plan of a set whose order begins as a front asks, with or without a sort at its top. The offers tell
/// what the leaves mean.
pub(crate) fn build<O: Offers>(
    alloc: Global,
    ways: &Ways,
    cells: &[Cell],
    offers: &O,
    set: usize,
    front: usize,
    sorts: bool,
) -> Result<Plan, AllocError>
    requires table { IsTable ways.now cells.now }
    requires done { AreRows ways.now (O.table offers.now) (row_of (width ways.now) cells.now) (sets_of ways.now) }
    requires set_in { set < sets_of ways.now }
    requires front_in { front < width ways.now }
    requires possible { built.front_cost sorts (row_of (width ways.now) cells.now set) front < constant.IMPOSSIBLE }
    ensures { IfOk result (λ plan. built.IsPlanFor sorts ways.now.task.now (O.table offers.now) (order_of ways.now front) set (built.front_cost sorts (row_of (width ways.now) cells.now set) front) plan) }
{
    let cell = cell_of(ways, cells, set, front);
    if is_sorted(cell, sorts) {
        let input = build(alloc, ways, cells, offers, set, 0, false)?;
        let plan = sort_plan(alloc, front_at(ways, front), ways.task.wanted_list(), input)?;
        return Ok(plan);
    }
    match choice_of(ways, cells, offers, set, front) {
        Choice::Read { slot, offer } => Ok(Plan::Leaf { slot, offer }),
        Choice::MergeOf {
            edge,
            left,
            left_front,
            right_front,
        } => {
            let a = build(alloc, ways, cells, offers, left, left_front, true)?;
            let b = build(alloc, ways, cells, offers, set - left, right_front, true)?;
            let plan = merge_plan(alloc, edge, a, b)?;
            Ok(plan)
        }
        Choice::HashOf { left } => {
            let a = build(alloc, ways, cells, offers, left, 0, false)?;
            let b = build(alloc, ways, cells, offers, set - left, 0, false)?;
            let plan = hash_plan(alloc, a, b)?;
            Ok(plan)
        }
    }
}
