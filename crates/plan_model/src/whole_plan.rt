//! Which whole plans are valid, and what they cost.
ghost use Rattle.std.specs.Prelude.{◌≡◌, ◌≢◌, ◌↔◌, ◌+◌, ◌*◌, ◌<◌, ◌≤◌, [], IsTrue, if◌then◌else◌};
ghost use Rattle.std.specs.Option.{SomeIff, IfSome};
ghost use Rattle.adv_base.specs.declared.limits.TheConstants.{MOST_RATE, MOST_ROWS};
ghost use Rattle.adv_base.specs.Items.{BeginsWith};
ghost use Rattle.plan_model.specs.declared.plan.TheConstants.{MOST_COST};
ghost use Rattle.plan_model.specs.Plans as plans;
ghost use Rattle.plan_model.specs.Costs as costs;

use crate::judge::judge;
use crate::offers::Offers;
use crate::order::{begins_with, delivered};
use crate::plan::{GroupStep, Whole};
use crate::price::{group_price, rows_of, sort_price};
use crate::task::Task;
use adv_base::{Item, List, all_slots};

/// Whether a sort may be the top of a body that is grouped so.
pub(crate) fn may_sort(step: GroupStep) -> bool
    ensures { result ≡ plans.body_sorts step }
{
    match step {
        GroupStep::Sorted => true,
        GroupStep::Nothing => false,
        GroupStep::Hashed => false,
    }
}

/// Whether the group step fits the list to group by and the order of what it groups.
fn fits_group(group: &Option<List<Item>>, step: GroupStep, order: &[Item]) -> bool
    ensures { IsTrue result ↔ plans.FitsGroup group.now step order.now }
{
    match group {
        None => match step {
            GroupStep::Nothing => true,
            GroupStep::Sorted => false,
            GroupStep::Hashed => false,
        },
        Some(list) => match step {
            GroupStep::Nothing => false,
            GroupStep::Sorted => begins_with(order, list.as_slice()),
            GroupStep::Hashed => true,
        },
    }
}

/// The order after the group step.
fn grouped_order<'a>(
    group: &'a Option<List<Item>>,
    step: GroupStep,
    order: &'a [Item],
) -> &'a [Item]
    ensures { result.now ≡ plans.group_order group.now step order.now }
{
    match step {
        GroupStep::Nothing => order,
        GroupStep::Sorted => match group {
            Some(list) => list.as_slice(),
            None => order,
        },
        GroupStep::Hashed => &[],
    }
}

/// Whether a whole plan whose body gives that order ends in the order that the task wants.
fn is_ordered(task: &Task, whole: &Whole, order: &[Item]) -> bool
    ensures { IsTrue result ↔ ((IsTrue whole.now.final_sort → task.now.order ≢ []) × BeginsWith (if whole.now.final_sort then task.now.order else plans.group_order task.now.group whole.now.group order.now) task.now.order) }
{
    if whole.final_sort {
        return !task.order.is_empty();
    }
    begins_with(
        grouped_order(&task.group, whole.group, order),
        task.order.as_slice(),
    )
}

/// The rows that a final sort gets, of a body with that many rows.
fn final_rows(task: &Task, rows: u64) -> u64
    requires some { 1 ≤ rows }
    requires most { rows ≤ MOST_ROWS }
    ensures exact { result ≡ costs.final_rows task.now task.now.group rows }
    ensures some { 1 ≤ result }
    ensures most { result ≤ MOST_ROWS }
{
    match &task.group {
        None => rows,
        Some(_) => task.group_rows,
    }
}

/// What the group step and the final sort cost above a body with that many rows.
pub(crate) fn steps_price(task: &Task, whole: &Whole, rows: u64) -> u128
    requires some { 1 ≤ rows }
    requires most { rows ≤ MOST_ROWS }
    ensures exact { result ≡ costs.group_cost task.now.rates whole.now.group rows + (if whole.now.final_sort then costs.sort_cost task.now.rates (costs.final_rows task.now task.now.group rows) else 0) }
    ensures most { result ≤ 42 * (MOST_RATE * MOST_ROWS) }
{
    let grouping = group_price(task, whole.group, rows);
    if whole.final_sort {
        return grouping + sort_price(task, final_rows(task, rows));
    }
    grouping
}

/// What a plan costs in thousandths of a page read, in the manner of System R's and INUM's models: the prices of its
/// offers and what each sort, merge, hash join, group step and final sort costs. It is None exactly where the plan isn't
/// a valid one of the whole task over these offers; a valid one costs less than 10^21. Any plan may be asked about. It
/// takes no memory.
pub fn plan_cost<O: Offers>(task: &Task, offers: &O, whole: &Whole) -> Option<u128>
    ensures exact { SomeIff result (plans.IsWhole task.now (O.table offers.now) whole.now) (costs.whole_cost task.now (O.table offers.now) whole.now) }
    ensures most { IfSome result (λ cost. cost < MOST_COST) }
{
    offers.limits();
    let body = judge(task, offers, &whole.body, may_sort(whole.group))?;
    if body.covers != all_slots(task.slots) {
        return None;
    }
    let order = delivered(offers, &whole.body);
    if !fits_group(&task.group, whole.group, order) {
        return None;
    }
    if !is_ordered(task, whole, order) {
        return None;
    }
    Some(body.cost + steps_price(task, whole, rows_of(task, body.covers)))
}
