//! The templates of whole plans: what stands above the joins.
ghost use Rattle.std.specs.Prelude.{◌≡◌, ◌≤◌, All, AllPairs, IfOk, OnOk};
ghost use Rattle.std.specs.List.Sorted.{IsPermutation};
ghost use Rattle.plan_model.specs.Combinations.{AreEnough, IsIn};
ghost use Rattle.inum_cache.specs.Numbering.{AreOrders};
ghost use Rattle.inum_cache.specs.Templates.{FitsOrders};
ghost use Rattle.inum_cache.specs.inner.Cells as cells;
ghost use Rattle.inum_cache.specs.inner.Passes.{cell_in};
ghost use Rattle.inum_cache.specs.inner.Tops as tops;

use crate::cell::{Hints, kept, raise_each};
use crate::pass::{Pass, cell_at, row_at};
use adv_base::{Item, List, NoMemory};
use plan_model::{GroupStep, Task, Template, group_price, rows_of};
use planner::{final_cost, has_front, is_nil};
use std::alloc::Global;

/// Whether there is a list to group by, or some item to order by.
fn has_list(task: &Task) -> bool
    ensures { result ≡ tops.has_list task.now.group task.now.order }
{
    match &task.group {
        None => !is_nil(task.order.as_slice()),
        Some(_) => true,
    }
}

/// What the steps above a body in the order of that list cost.
fn ordered_price(task: &Task, rows: u64) -> u128
    requires most { rows ≤ 1000000000000 }
    ensures exact { result ≡ tops.ordered_cost task.now.group task.now rows }
    ensures few { result ≤ 100000000000000000000000 }
{
    match &task.group {
        None => 0,
        Some(group) => {
            let sorts = !has_front(group.as_slice(), task.order.as_slice());
            let sorting = final_cost(task, task.group_rows, sorts);
            group_price(task, GroupStep::Sorted, rows) + sorting
        }
    }
}

/// What the steps above a body in no order cost.
fn unordered_price(task: &Task, rows: u64) -> u128
    requires some { 1 ≤ rows }
    requires most { rows ≤ 1000000000000 }
    ensures exact { result ≡ tops.unordered_cost task.now.group task.now rows }
    ensures few { result ≤ 100000000000000000000000 }
{
    let sorts = !is_nil(task.order.as_slice());
    match &task.group {
        None => final_cost(task, rows, sorts),
        Some(_) => {
            let sorting = final_cost(task, task.group_rows, sorts);
            group_price(task, GroupStep::Hashed, rows) + sorting
        }
    }
}

/// Gives a list what comes of bodies in the order of that list, where there is one.
fn add_ordered(
    pass: &Pass<'_>,
    hints: &mut Hints,
    templates: &mut Vec<Template>,
    row: &[List<Template>],
    rows: u64,
) -> Result<(), NoMemory>
    requires small { All cells.IsSmall (cell_in row.now 1) }
    requires most { rows ≤ 1000000000000 }
    ensures { OnOk result (cells.Takes pass.now.choices.now.orders (tops.OrderedGives pass.now.ways.task.now row.now rows) templates.old.items templates.new.items) }
{
    if !has_list(pass.ways.task) {
        return Ok(());
    }
    let price = ordered_price(pass.ways.task, rows);
    raise_each(pass.choices, hints, templates, cell_at(row, 1), price)?;
    Ok(())
}

/// Puts templates in order.
fn put_in_order(templates: &mut Vec<Template>)
    ensures moved { IsPermutation templates.old.items templates.new.items }
    ensures ordered { AllPairs cells.Precedes templates.new.items }
{
    templates.sort_unstable_by_key(
        |template: &Template|
            ensures { result ≡ template.now.needs }
        { template.needs },
    );
}

/// Templates that are enough for the task, from one pass over its sets of slots: each is of a plan above leaves of the
/// orders that it needs, and for each combination of orders, each plan above its leaves costs at least what some template
/// does that needs no more. None replaces another, and they stand in order.
pub(crate) fn enough_templates(
    alloc: Global,
    pass: &Pass<'_>,
    count: usize,
) -> Result<List<Template>, NoMemory>
    requires { AreOrders pass.now.ways.task.now pass.now.choices.now.orders }
    ensures enough { IfOk result (λ templates. AreEnough pass.now.ways.task.now (IsIn pass.now.ways.task.now templates)) }
    ensures thin { IfOk result (λ templates. cells.IsThin pass.now.choices.now.orders templates) }
    ensures fit { IfOk result (λ templates. All (FitsOrders pass.now.choices.now.orders) templates) }
{
    let mut hints = Hints::new(alloc, pass.choices, count)?;
    let rows = pass.rows(alloc, &mut hints)?;
    let task = pass.ways.task;
    let full = task.rows.len() - 1;
    let row = row_at(rows.as_slice(), full);
    let all = rows_of(task, full);
    let mut templates = Vec::new(alloc);
    let unordered = cell_at(row, 0);
    let price = unordered_price(task, all);
    raise_each(pass.choices, &mut hints, &mut templates, unordered, price)?;
    add_ordered(pass, &mut hints, &mut templates, row, all)?;
    put_in_order(&mut templates);
    let least = kept(alloc, pass.choices, templates.as_slice())?;
    Ok(least)
}
