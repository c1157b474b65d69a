//! The searches of a sweep, in order, and the curve that they make.
ghost use Rattle.std.specs.Prelude.{◌≡◌, ◌+◌, ◌-◌, ◌*◌, ◌<◌, ◌≤◌, ◌∷◌, ◌++◌, [], IfOk, length};
ghost use Rattle.adv_base.specs.declared.limits.TheConstants.{MOST_NODES, MOST_PAGES};
ghost use Rattle.budget_sweep.specs.Curves.{IsCurveForEach};
ghost use Rattle.budget_sweep.specs.inner.Passes as passes;

use crate::passes::{least_cost, put_lows};
use crate::searching::searched;
use adv_base::{IndexShape, List, NoMemory};
use bip_model::{Answer, Point, Programme};
use branch_bound::Proposals;
use std::alloc::Global;

/// A budget of a sweep, by its number from 0.
fn budget_at(first: u64, step: u64, count: u32, number: u32) -> u64
    requires within { number < count }
    requires last { first + step * (count - 1) ≤ MOST_PAGES }
    ensures budget { result ≡ first + step * number }
    ensures most { result ≤ MOST_PAGES }
{
    first + step * number as u64
}

/// The point of a budget and its answer, behind those of smaller ones; its `low` is the bound of its own answer.
fn next_point(budget: u64, answer: Answer, points: &[Point]) -> Point
    requires least { passes.AreLeast points.now }
    ensures budget { result.budget ≡ budget }
    ensures answer { result.answer ≡ answer }
    ensures best { passes.IsNextLeast points.now result }
{
    let best = least_cost(points, &answer);
    let low = answer.bound;
    Point {
        budget,
        answer,
        best,
        low,
    }
}

/// The answers of a sweep, from the last budget to the first: each search goes on with what the one before it found.
fn backward(
    alloc: Global,
    programme: &Programme,
    shapes: &[IndexShape],
    first: u64,
    step: u64,
    count: u32,
    nodes: u32,
) -> Result<Vec<Answer>, NoMemory>
    requires last { first + step * (count - 1) ≤ MOST_PAGES }
    requires some_node { 1 ≤ nodes }
    requires nodes { nodes ≤ MOST_NODES }
    ensures count { IfOk result (λ answers. length answers.items ≡ count) }
    ensures best { IfOk result (λ answers. passes.AreBackward programme.now shapes.now first step count nodes answers.items) }
{
    let mut answers = Vec::with_capacity(alloc, count as usize)?;
    let mut proposed = Proposals::new(alloc, programme, nodes)?;
    for turn in 0..count {
        let budget = budget_at(first, step, count, count - 1 - turn);
        let answer = searched(alloc, programme, shapes, budget, nodes, &mut proposed)?;
        answers.push(answer)?;
    }
    Ok(answers)
}

/// The answer of the least budget that is left.
fn next_answer(answers: &mut Vec<Answer>) -> Answer
    requires { 0 < length answers.old.items }
    ensures { answers.old.items ≡ answers.new.items ++ result ∷ [] }
{
    match answers.pop() {
        Some(answer) => answer,
        None => unreachable!(),
    }
}

/// The points of a sweep, but for what later ones say of earlier ones.
fn forward(
    alloc: Global,
    programme: &Programme,
    shapes: &[IndexShape],
    first: u64,
    step: u64,
    count: u32,
    nodes: u32,
) -> Result<Vec<Point>, NoMemory>
    requires last { first + step * (count - 1) ≤ MOST_PAGES }
    requires some_node { 1 ≤ nodes }
    requires nodes { nodes ≤ MOST_NODES }
    ensures count { IfOk result (λ points. length points.items ≡ count) }
    ensures answered { IfOk result (λ points. passes.AreAnswered programme.now shapes.now first step nodes points.items) }
    ensures least { IfOk result (λ points. passes.AreLeast points.items) }
{
    let mut answers = backward(alloc, programme, shapes, first, step, count, nodes)?;
    let mut points = Vec::with_capacity(alloc, count as usize)?;
    for number in 0..count {
        let answer = next_answer(&mut answers);
        let budget = budget_at(first, step, count, number);
        let point = next_point(budget, answer, points.as_slice());
        points.push(point)?;
    }
    Ok(points)
}

/// A curve over space budgets: a best answer of a programme for each of `count` budgets, from `first` pages in steps of
/// `step`, found by a search of at most `nodes` nodes each from the root that leaves every candidate free; with the least
/// cost of the answers so far, and the greatest bound of those from there on. The programme stands for a setting whose
/// candidates are the shapes. Costs are in thousandths of a page read. Want of memory is the one error.
pub fn sweep(
    alloc: Global,
    programme: &Programme,
    shapes: &[IndexShape],
    first: u64,
    step: u64,
    count: u32,
    nodes: u32,
) -> Result<List<Point>, NoMemory>
    requires some_step { 1 ≤ step }
    requires some { 1 ≤ count }
    requires most { count ≤ 16 }
    requires last { first + step * (count - 1) ≤ MOST_PAGES }
    requires some_node { 1 ≤ nodes }
    requires nodes { nodes ≤ MOST_NODES }
    ensures { IfOk result (IsCurveForEach programme.now shapes.now first step count nodes) }
{
    let mut points = forward(alloc, programme, shapes, first, step, count, nodes)?;
    put_lows(points.as_mut_slice());
    Ok(List { items: points })
}
