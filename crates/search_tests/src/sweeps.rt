//! Curves over the budgets of programmes that are made by hand or drawn.
ghost use Rattle.std.specs.Prelude.{◌≤◌};

use crate::made::{Draws, drawn};
use crate::problems::{PLAIN, Problem, least, pages, shapes_of};
use crate::searches::{is_below, knapsack_programme};
use bip_model::{Point, Programme};
use budget_sweep::sweep;
use std::alloc::Global;
use std::process::Abort;

/// A point has this budget, and its set these pages; all its figures are the cost, with the 7 of what exists.
fn is_point(
    rt: &impl Abort,
    programme: &Programme,
    point: &Point,
    budget: u64,
    size: u64,
    cost: u32,
) {
    let cost = cost as u128 + 7;
    assert!(rt; point.budget == budget);
    assert!(rt; pages(programme, &point.answer.config) == size);
    assert!(rt; point.answer.cost == cost);
    assert!(rt; !is_below(point.answer.bound, cost));
    assert!(rt; point.best == cost);
    assert!(rt; point.low == cost as i128);
}

/// The knapsack at four budgets: nothing, the first index, the second, which saves more, and both.
#[test]
fn knapsack_curve(rt: HostRuntime) {
    let alloc = rt.alloc();
    let programme = knapsack_programme(&rt, alloc);
    let shapes = shapes_of(&rt, alloc, PLAIN);
    assert!(&rt; programme.sizes.len() == 6);
    let curve = sweep(alloc, &programme, shapes.as_slice(), 0, 3, 4, 20000).expect(&rt, "memory");
    match curve.as_slice() {
        [none, first, second, both] => {
            is_point(&rt, &programme, none, 0, 0, 1680000);
            is_point(&rt, &programme, first, 3, 3, 1010000);
            is_point(&rt, &programme, second, 6, 4, 954000);
            is_point(&rt, &programme, both, 9, 7, 284000);
        }
        _ => assert!(rt; false),
    }
}

/// At each budget the least cost of the 64 configurations lies between `low` and `best`, which never rise; where each search
/// has nodes to spare, they are that cost.
fn judge_curve(rt: &impl Abort, alloc: Global, programme: &Programme, nodes: u32, is_ample: bool)
    requires some { 1 ≤ nodes }
    requires most { nodes ≤ 20000 }
{
    let shapes = shapes_of(rt, alloc, PLAIN);
    assert!(rt; programme.sizes.len() == 6);
    let curve = sweep(alloc, programme, shapes.as_slice(), 2, 2, 8, nodes).expect(rt, "memory");
    assert!(rt; curve.len() == 8);
    let mut budget = 2;
    let mut best = u128::MAX;
    let mut low = i128::MAX;
    for point in curve.as_slice() {
        let cost = least(&Problem {
            programme,
            tables: PLAIN,
            budget,
        });
        assert!(rt; point.budget == budget);
        assert!(rt; cost <= point.best && point.best <= best);
        assert!(rt; is_below(point.low, cost.saturating_add(1)) && point.low <= low);
        assert!(rt; !is_ample || point.best == cost && !is_below(point.low, cost));
        budget = budget.saturating_add(2);
        best = point.best;
        low = point.low;
    }
}

#[test]
fn curves_as_by_trying_all(rt: HostRuntime) {
    let alloc = rt.alloc();
    let mut draws = Draws::new(1986);
    for _ in 0..8 {
        let programme = drawn(&rt, alloc, &mut draws);
        judge_curve(&rt, alloc, &programme, 1, false);
        judge_curve(&rt, alloc, &programme, 3, false);
        judge_curve(&rt, alloc, &programme, 20000, true);
    }
}
