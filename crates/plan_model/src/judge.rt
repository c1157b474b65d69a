//! Which plans are valid, and what they cover and cost.
ghost use Rattle.std.specs.Prelude.{◌≡◌, ◌+◌, ◌<◌, bit_and, All, IsTrue, true, length};
ghost use Rattle.std.specs.List.{list_any};
ghost use Rattle.std.specs.Option.{SomeIff};
ghost use Rattle.adv_base.specs.OfferTables.{OfferTableLimits};
ghost use Rattle.plan_model.specs.Plans as plans;
ghost use Rattle.plan_model.specs.inner.Judging as judging;

use crate::offers::Offers;
use crate::order::{are_joined, crosses, delivered, is_column_of, serves};
use crate::plan::Plan;
use crate::price::{hash_price, merge_price, rows_of, sort_price};
use crate::task::Task;
use adv_base::Item;

/// What a valid plan covers, as a number, and what it costs.
#[derive(Clone, Copy)]
pub(crate) struct Judged {
    pub covers: usize,
    pub cost: u128,
}

fn judge_leaf<O: Offers>(task: &Task, offers: &O, slot: u8, offer: u32) -> Option<Judged>
    ensures { SomeIff result ((slot < task.now.slots) × (offer < length (O.table offers.now slot))) (judging.leaf_judged (O.table offers.now) slot offer) }
{
    if slot >= task.slots || offer >= offers.count(slot) {
        return None;
    }
    Some(Judged {
        covers: 1 << slot,
        cost: offers.price(slot, offer) as u128,
    })
}

fn judge_sort(task: &Task, order: &[Item], input: Judged) -> Option<Judged>
    requires { judging.JudgedLimits task.now input }
    ensures { SomeIff result (All (λ item. plans.is_column_of input.covers item ≡ true) order.now) (judging.sort_judged task.now input) }
{
    if !order.iter().all(|item| is_column_of(input.covers, item)) {
        return None;
    }
    Some(Judged {
        covers: input.covers,
        cost: input.cost + sort_price(task, rows_of(task, input.covers)),
    })
}

/// Whether sides that cover these sets and deliver these orders can be merged on an edge.
fn merges(
    task: &Task,
    number: u32,
    left: usize,
    right: usize,
    left_order: &[Item],
    right_order: &[Item],
) -> bool
    ensures yes { IsTrue result → plans.Merges task.now number left right left_order.now right_order.now }
    ensures no { plans.Merges task.now number left right left_order.now right_order.now → IsTrue result }
{
    let edges = task.edges.as_slice();
    match edges.get(number as usize) {
        None => false,
        Some(edge) => crosses(left, right, edge)
            && serves(left_order, edge, left)
            && serves(right_order, edge, right),
    }
}

fn judge_merge(
    task: &Task,
    number: u32,
    left: Judged,
    right: Judged,
    left_order: &[Item],
    right_order: &[Item],
) -> Option<Judged>
    requires left { judging.JudgedLimits task.now left }
    requires right { judging.JudgedLimits task.now right }
    ensures { SomeIff result ((bit_and left.covers right.covers ≡ 0) × plans.Merges task.now number left.covers right.covers left_order.now right_order.now) (judging.merge_judged task.now left right) }
{
    if left.covers & right.covers != 0 {
        return None;
    }
    if !merges(
        task,
        number,
        left.covers,
        right.covers,
        left_order,
        right_order,
    ) {
        return None;
    }
    let covers = left.covers + right.covers;
    let price = merge_price(task, left.covers, right.covers);
    Some(Judged {
        covers,
        cost: left.cost + right.cost + price,
    })
}

fn judge_hash(task: &Task, left: Judged, right: Judged) -> Option<Judged>
    requires left { judging.JudgedLimits task.now left }
    requires right { judging.JudgedLimits task.now right }
    ensures { SomeIff result ((bit_and left.covers right.covers ≡ 0) × (list_any (plans.crosses left.covers right.covers) task.now.edges ≡ true)) (judging.hash_judged task.now left right) }
{
    if left.covers & right.covers != 0 {
        return None;
    }
    if !are_joined(task.edges.as_slice(), left.covers, right.covers) {
        return None;
    }
    let covers = left.covers + right.covers;
    let price = hash_price(task, left.covers, right.covers);
    Some(Judged {
        covers,
        cost: left.cost + right.cost + price,
    })
}

/// What a plan covers and costs, where it is valid; `sorts` says that a sort may stand at its top.
pub(crate) fn judge<O: Offers>(task: &Task, offers: &O, plan: &Plan, sorts: bool) -> Option<Judged>
    requires { OfferTableLimits (O.table offers.now) }
    ensures exact { SomeIff result (plans.IsValid sorts task.now (O.table offers.now) plan.now) (judging.plan_judged task.now (O.table offers.now) plan.now) }
{
    match plan {
        Plan::Leaf { slot, offer } => judge_leaf(task, offers, *slot, *offer),
        Plan::Sort { order, input } => {
            if !sorts {
                return None;
            }
            let input = judge(task, offers, input, false)?;
            judge_sort(task, order.as_slice(), input)
        }
        Plan::Merge { edge, left, right } => {
            let left_side = judge(task, offers, left, true)?;
            let right_side = judge(task, offers, right, true)?;
            judge_merge(
                task,
                *edge,
                left_side,
                right_side,
                delivered(offers, left),
                delivered(offers, right),
            )
        }
        Plan::Hash { left, right } => {
            let left_side = judge(task, offers, left, false)?;
            let right_side = judge(task, offers, right, false)?;
            judge_hash(task, left_side, right_side)
        }
    }
}
