//! The lines of a plan.
ghost use Rattle.std.specs.Prelude.{◌≡◌, ◌++◌, ◌+◌, ◌*◌, ◌<◌, ◌≤◌, IfOk, decimal, codes, if◌then◌else◌, slice_get};
ghost use Rattle.std.specs.Result.{OnOk};
ghost use Rattle.adv_base.specs.OfferTables.{OfferTableLimits};
ghost use Rattle.plan_model.specs.Plans.{covers, IsValid, IsWhole};
ghost use Rattle.plan_model.specs.Costs as costs;
ghost use Rattle.plan_model.specs.inner.Judging.{plan_judged, JudgedLimits};
ghost use Rattle.plan_model.specs.PlanTexts.{line, items_words, merge_words, plan_words, plan_lines, group_lines, group_depth, grouped_lines, whole_lines};

use crate::judge::{Judged, judge};
use crate::labels::Labels;
use crate::offers::Offers;
use crate::plan::{GroupStep, Plan, Whole};
use crate::price::{group_price, rows_of};
use crate::task::Task;
use crate::whole_plan::{may_sort, steps_price};
use crate::words::{push, push_edge, push_indent, push_items, push_leaf, push_number};
use adv_base::{Bytes, Item, NoMemory};
use std::alloc::Global;

/// What a valid plan covers and costs.
fn judged<O: Offers>(task: &Task, offers: &O, plan: &Plan, sorts: bool) -> Judged
    requires limits { OfferTableLimits (O.table offers.now) }
    requires valid { IsValid sorts task.now (O.table offers.now) plan.now }
    ensures exact { result ≡ plan_judged task.now (O.table offers.now) plan.now }
    ensures limits { JudgedLimits task.now result }
{
    match judge(task, offers, plan, sorts) {
        Some(judged) => judged,
        None => unreachable!(),
    }
}

/// Pushes what ends a line: its cost.
fn push_cost(alloc: Global, text: &mut Vec<u8>, cost: u128) -> Result<(), NoMemory>
    ensures { OnOk result (text.new.items ≡ text.old.items ++ (codes " cost " ++ (decimal cost ++ codes "\n"))) }
{
    push(text, b" cost ")?;
    push_number(alloc, text, cost)?;
    push(text, b"\n")
}

fn push_line(
    alloc: Global,
    text: &mut Vec<u8>,
    depth: usize,
    words: &[u8],
    cost: u128,
) -> Result<(), NoMemory>
    requires { depth ≤ 1000 }
    ensures { OnOk result (text.new.items ≡ text.old.items ++ line depth words.now cost) }
{
    push_indent(text, depth)?;
    push(text, words)?;
    push_cost(alloc, text, cost)
}

/// Pushes a word and a list.
fn push_listed(
    alloc: Global,
    text: &mut Vec<u8>,
    labels: &Labels,
    word: &[u8],
    items: &[Item],
) -> Result<(), NoMemory>
    ensures { OnOk result (text.new.items ≡ text.old.items ++ (word.now ++ items_words labels.now items.now)) }
{
    push(text, word)?;
    push_items(alloc, text, labels, items)
}

/// Pushes a line of a word and a list.
fn push_listed_line(
    alloc: Global,
    text: &mut Vec<u8>,
    labels: &Labels,
    depth: usize,
    word: &[u8],
    items: &[Item],
    cost: u128,
) -> Result<(), NoMemory>
    requires { depth ≤ 1000 }
    ensures { OnOk result (text.new.items ≡ text.old.items ++ line depth (word.now ++ items_words labels.now items.now) cost) }
{
    push_indent(text, depth)?;
    push_listed(alloc, text, labels, word, items)?;
    push_cost(alloc, text, cost)
}

/// Pushes the words of a merge on the edge of a number, whose left side covers the set.
fn push_merge(
    text: &mut Vec<u8>,
    task: &Task,
    labels: &Labels,
    number: u32,
    set: usize,
) -> Result<(), NoMemory>
    ensures { OnOk result (text.new.items ≡ text.old.items ++ merge_words labels.now set (slice_get task.now.edges number)) }
{
    match task.edges.as_slice().get(number as usize) {
        Some(edge) => {
            push(text, b"merge ")?;
            push_edge(text, labels, set, edge)
        }
        None => Ok(()),
    }
}

/// Pushes the words of a valid plan's top operator.
fn push_words<O: Offers>(
    alloc: Global,
    text: &mut Vec<u8>,
    task: &Task,
    offers: &O,
    labels: &Labels,
    plan: &Plan,
    sorts: bool,
) -> Result<(), NoMemory>
    requires limits { OfferTableLimits (O.table offers.now) }
    requires valid { IsValid sorts task.now (O.table offers.now) plan.now }
    ensures { OnOk result (text.new.items ≡ text.old.items ++ plan_words task.now labels.now plan.now) }
{
    match plan {
        Plan::Leaf { slot, offer } => push_leaf(text, labels, *slot, *offer),
        Plan::Sort { order, .. } => push_listed(alloc, text, labels, b"sort ", order.as_slice()),
        Plan::Merge { edge, left, .. } => {
            let side = judged(task, offers, left, true);
            push_merge(text, task, labels, *edge, side.covers)
        }
        Plan::Hash { .. } => push(text, b"hash"),
    }
}

/// Pushes the line of a valid plan's top operator.
fn push_top<O: Offers>(
    alloc: Global,
    text: &mut Vec<u8>,
    task: &Task,
    offers: &O,
    labels: &Labels,
    plan: &Plan,
    sorts: bool,
    depth: usize,
) -> Result<(), NoMemory>
    requires limits { OfferTableLimits (O.table offers.now) }
    requires valid { IsValid sorts task.now (O.table offers.now) plan.now }
    requires room { depth ≤ 1000 }
    ensures { OnOk result (text.new.items ≡ text.old.items ++ line depth (plan_words task.now labels.now plan.now) (costs.plan_cost task.now (O.table offers.now) plan.now)) }
{
    push_indent(text, depth)?;
    push_words(alloc, text, task, offers, labels, plan, sorts)?;
    push_cost(alloc, text, judged(task, offers, plan, sorts).cost)
}

/// Pushes the lines of a valid plan with that many operators above it.
#[tactic(auto, using(crate::proofs::Bounds::covers_some))]
fn push_plan<O: Offers>(
    alloc: Global,
    text: &mut Vec<u8>,
    task: &Task,
    offers: &O,
    labels: &Labels,
    plan: &Plan,
    sorts: bool,
    depth: usize,
) -> Result<(), NoMemory>
    requires limits { OfferTableLimits (O.table offers.now) }
    requires valid { IsValid sorts task.now (O.table offers.now) plan.now }
    requires room { depth + (2 * covers plan.now + (if sorts then 1 else 0)) ≤ 1000 }
    ensures { OnOk result (text.new.items ≡ text.old.items ++ plan_lines task.now (O.table offers.now) labels.now depth plan.now) }
{
    push_top(alloc, text, task, offers, labels, plan, sorts, depth)?;
    match plan {
        Plan::Leaf { .. } => Ok(()),
        Plan::Sort { input, .. } => push_plan(
            alloc,
            text,
            task,
            offers,
            labels,
            input,
            false,
            depth + 1,
        ),
        Plan::Merge { left, right, .. } => {
            push_plan(alloc, text, task, offers, labels, left, true, depth + 1)?;
            push_plan(alloc, text, task, offers, labels, right, true, depth + 1)
        }
        Plan::Hash { left, right } => {
            push_plan(alloc, text, task, offers, labels, left, false, depth + 1)?;
            push_plan(alloc, text, task, offers, labels, right, false, depth + 1)
        }
    }
}

/// Pushes the line of the group step, if there is one.
fn push_group(
    alloc: Global,
    text: &mut Vec<u8>,
    depth: usize,
    step: GroupStep,
    cost: u128,
) -> Result<(), NoMemory>
    requires { depth ≤ 1000 }
    ensures { OnOk result (text.new.items ≡ text.old.items ++ group_lines depth step cost) }
{
    match step {
        GroupStep::Nothing => Ok(()),
        GroupStep::Sorted => push_line(alloc, text, depth, b"sort group", cost),
        GroupStep::Hashed => push_line(alloc, text, depth, b"hash group", cost),
    }
}

/// The depth below the group step.
fn depth_below(depth: usize, step: GroupStep) -> usize
    requires { depth ≤ 1 }
    ensures exact { result ≡ group_depth depth step }
    ensures most { result ≤ 2 }
{
    match step {
        GroupStep::Nothing => depth,
        GroupStep::Sorted => depth + 1,
        GroupStep::Hashed => depth + 1,
    }
}

/// Pushes the lines from the group step down.
fn push_grouped<O: Offers>(
    alloc: Global,
    text: &mut Vec<u8>,
    task: &Task,
    offers: &O,
    labels: &Labels,
    whole: &Whole,
    depth: usize,
) -> Result<(), NoMemory>
    requires limits { OfferTableLimits (O.table offers.now) }
    requires valid { IsWhole task.now (O.table offers.now) whole.now }
    requires top { depth ≤ 1 }
    ensures { OnOk result (text.new.items ≡ text.old.items ++ grouped_lines task.now (O.table offers.now) labels.now depth whole.now) }
{
    let sorts = may_sort(whole.group);
    let body = judged(task, offers, &whole.body, sorts);
    let cost = body.cost + group_price(task, whole.group, rows_of(task, body.covers));
    push_group(alloc, text, depth, whole.group, cost)?;
    push_plan(
        alloc,
        text,
        task,
        offers,
        labels,
        &whole.body,
        sorts,
        depth_below(depth, whole.group),
    )
}

/// Pushes the line of the final sort.
fn push_final<O: Offers>(
    alloc: Global,
    text: &mut Vec<u8>,
    task: &Task,
    offers: &O,
    labels: &Labels,
    whole: &Whole,
) -> Result<(), NoMemory>
    requires limits { OfferTableLimits (O.table offers.now) }
    requires valid { IsWhole task.now (O.table offers.now) whole.now }
    ensures { OnOk result (text.new.items ≡ text.old.items ++ line 0 (codes "final sort " ++ items_words labels.now task.now.order) (costs.whole_cost task.now (O.table offers.now) whole.now)) }
{
    let body = judged(task, offers, &whole.body, may_sort(whole.group));
    let cost = body.cost + steps_price(task, whole, rows_of(task, body.covers));
    push_listed_line(
        alloc,
        text,
        labels,
        0,
        b"final sort ",
        task.order.as_slice(),
        cost,
    )
}

/// A valid whole plan as a text: a line for each operator, before those that it reads from and two spaces to their left,
/// with what it and all below it cost. A name that the labels lack is left empty. `NoMemory` is want of memory.
pub fn plan_text<O: Offers>(
    alloc: Global,
    task: &Task,
    offers: &O,
    labels: &Labels,
    whole: &Whole,
) -> Result<Bytes, NoMemory>
    requires { IsWhole task.now (O.table offers.now) whole.now }
    ensures { IfOk result (λ text. text ≡ whole_lines task.now (O.table offers.now) labels.now whole.now) }
{
    offers.limits();
    let mut text = Vec::new(alloc);
    if whole.final_sort {
        push_final(alloc, &mut text, task, offers, labels, whole)?;
        push_grouped(alloc, &mut text, task, offers, labels, whole, 1)?;
    } else {
        push_grouped(alloc, &mut text, task, offers, labels, whole, 0)?;
    }
    Ok(Bytes { items: text })
}
