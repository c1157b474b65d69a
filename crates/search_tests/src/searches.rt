//! Searches of programmes that are made by hand or drawn, against a plain program that tries every configuration.
ghost use Rattle.std.specs.Prelude.{◌≤◌};

use crate::made::{Draws, drawn, mixed, ordered, part, shared, wide_programme, wide_slot};
use crate::problems::{PLAIN, Problem, fits, least, shapes_of};
use bip_model::{Answer, Fix, Programme, grant_count, value};
use branch_bound::{Earlier, Proposals, Room, search};
use std::alloc::Global;
use std::process::Abort;

/// What a search works with beside its room, for at most 20000 nodes.
fn proposals(rt: &impl Abort, alloc: Global, programme: &Programme) -> Proposals {
    Proposals::new(alloc, programme, 20000).expect(rt, "memory")
}

/// What a search answers that goes on with what was proposed last.
fn searched(
    rt: &impl Abort,
    alloc: Global,
    problem: &Problem<'_>,
    nodes: u32,
    proposed: &mut Proposals,
) -> Answer
    requires budget { problem.now.budget ≤ 1000 }
    requires some { 1 ≤ nodes }
    requires most { nodes ≤ 20000 }
{
    let programme = problem.programme;
    let shapes = shapes_of(rt, alloc, problem.tables);
    let root = Fix::free();
    let room = Room::new(alloc, programme, nodes).expect(rt, "memory");
    search(
        programme,
        shapes.as_slice(),
        &root,
        problem.budget,
        nodes,
        room,
        proposed,
    )
}

/// A bound lies below a cost.
pub(crate) fn is_below(bound: i128, cost: u128) -> bool {
    bound < 0 || (bound as u128) < cost
}

/// An answer is right beside the least cost, and the search gave up only where its nodes were spent.
fn judge_answer(rt: &impl Abort, problem: &Problem<'_>, nodes: usize, best: u128, answer: &Answer) {
    assert!(rt; fits(problem, &answer.config));
    assert_eq!(rt; value(problem.programme, &answer.config), answer.cost);
    assert!(rt; best <= answer.cost);
    assert!(rt; is_below(answer.bound, best.saturating_add(1)));
    let made = answer.tree.len();
    assert!(rt; made <= nodes);
    if is_below(answer.bound, answer.cost) {
        assert!(rt; nodes < 127);
        assert!(rt; made == nodes || made.saturating_add(1) == nodes);
    } else {
        assert_eq!(rt; answer.cost, best);
    }
}

/// What a search works with that recalls an answer to the same programme, as if one of the candidates were another than then.
fn recalled(
    rt: &impl Abort,
    alloc: Global,
    programme: &Programme,
    answer: &Answer,
    other: usize,
) -> Proposals {
    let mut numbers = [0u16; 257];
    for number in 1..257 {
        if number != other {
            numbers[number] = number as u16;
        }
    }
    let mut places = Vec::new(alloc);
    for place in 0..grant_count(programme) {
        places.push((place & 0xffff) as u32).expect(rt, "memory");
    }
    let earlier = Earlier {
        answer,
        numbers: &numbers,
        places: places.as_slice(),
    };
    Proposals::after(alloc, programme, 20000, &earlier).expect(rt, "memory")
}

/// So is that of a search that begins anew, of those that recall its answer, and of one that goes on.
fn judge(
    rt: &impl Abort,
    alloc: Global,
    problem: &Problem<'_>,
    nodes: u32,
    best: u128,
    proposed: &mut Proposals,
)
    requires budget { problem.now.budget ≤ 1000 }
    requires some { 1 ≤ nodes }
    requires most { nodes ≤ 20000 }
{
    let mut fresh = proposals(rt, alloc, problem.programme);
    let answer = searched(rt, alloc, problem, nodes, &mut fresh);
    judge_answer(rt, problem, nodes as usize, best, &answer);
    for other in 0..3 {
        let mut known = recalled(rt, alloc, problem.programme, &answer, other);
        let again = searched(rt, alloc, problem, nodes, &mut known);
        judge_answer(rt, problem, nodes as usize, best, &again);
    }
    let answer = searched(rt, alloc, problem, nodes, proposed);
    judge_answer(rt, problem, nodes as usize, best, &answer);
}

/// The same with few nodes and many.
fn judge_all(
    rt: &impl Abort,
    alloc: Global,
    programme: &Programme,
    tables: [u16; 6],
    budget: u64,
    proposed: &mut Proposals,
)
    requires budget { budget ≤ 1000 }
{
    let problem = Problem {
        programme,
        tables,
        budget,
    };
    let best = least(&problem);
    for nodes in [1u32, 2, 5, 20000] {
        judge(rt, alloc, &problem, nodes, best, proposed);
    }
}

/// Drawn programmes, under budgets from nothing to all, and where some of the candidates clash.
#[test]
fn as_by_trying_all(rt: HostRuntime) {
    let alloc = rt.alloc();
    let mut draws = Draws::new(2007);
    for _ in 0..16 {
        let programme = drawn(&rt, alloc, &mut draws);
        let mut proposed = proposals(&rt, alloc, &programme);
        for budget in [14, 8, 0] {
            judge_all(&rt, alloc, &programme, PLAIN, budget, &mut proposed);
        }
        let tables = [1, 1, 2, 2, 2, 0];
        judge_all(&rt, alloc, &programme, tables, 14, &mut proposed);
    }
}

/// At every budget of nodes: a tree of six candidates has at most 127.
fn judge_nodes(
    rt: &impl Abort,
    alloc: Global,
    problem: &Problem<'_>,
    best: u128,
    proposed: &mut Proposals,
)
    requires budget { problem.now.budget ≤ 1000 }
{
    for nodes in 1..128 {
        judge(rt, alloc, problem, nodes, best, proposed);
    }
    judge(rt, alloc, problem, 20000, best, proposed);
}

/// So where candidates are clustered on these tables, at every budget of pages, of which all candidates have 20 at most. At one
/// of these at least what clashes would be best.
fn judge_budgets(rt: &impl Abort, alloc: Global, programme: &Programme, tables: [u16; 6]) {
    let mut proposed = proposals(rt, alloc, programme);
    let mut is_bound = false;
    for budget in 0..21 {
        let problem = Problem {
            programme,
            tables,
            budget,
        };
        let plain = Problem {
            programme,
            tables: PLAIN,
            budget,
        };
        let best = least(&problem);
        is_bound = is_bound || least(&plain) < best;
        judge_nodes(rt, alloc, &problem, best, &mut proposed);
    }
    assert!(rt; is_bound);
}

/// Two candidates that clash.
const TWO: [u16; 6] = [0, 1, 1, 0, 0, 0];

/// Two pairs of candidates that clash.
const PAIRS: [u16; 6] = [1, 1, 2, 2, 0, 0];

/// Three candidates that clash with each other.
const THREE: [u16; 6] = [3, 0, 3, 3, 0, 0];

/// Of the programme that is drawn by 233 each candidate serves a statement.
#[test]
fn clustered_as_by_trying_all(rt: HostRuntime) {
    let alloc = rt.alloc();
    let mut draws = Draws::new(233);
    judge_budgets(&rt, alloc, &drawn(&rt, alloc, &mut draws), TWO);
    judge_budgets(&rt, alloc, &mixed(&rt, alloc), PAIRS);
    judge_budgets(&rt, alloc, &shared(&rt, alloc), THREE);
}

/// The best configuration within a budget has this cost, and the search says so.
fn costs(
    rt: &impl Abort,
    alloc: Global,
    programme: &Programme,
    tables: [u16; 6],
    budget: u64,
    cost: u128,
)
    requires budget { budget ≤ 1000 }
{
    let problem = Problem {
        programme,
        tables,
        budget,
    };
    let mut proposed = proposals(rt, alloc, programme);
    let answer = searched(rt, alloc, &problem, 20000, &mut proposed);
    assert_eq!(rt; answer.cost, cost);
    assert!(rt; !is_below(answer.bound, cost));
}

/// The knapsack of two indexes, of 3 and 4 pages: statements of weights 10 and 11 cost 80000 without their index, 13000 and
/// 14000 with it. The four other candidates are of no use, and 7 is the upkeep of what exists.
pub(crate) fn knapsack_programme(rt: &impl Abort, alloc: Global) -> Programme {
    let one = wide_slot(
        rt,
        alloc,
        30000,
        ordered(rt, alloc, 1, 13000),
        ordered(rt, alloc, 3, 90000),
    );
    let two = wide_slot(
        rt,
        alloc,
        30000,
        ordered(rt, alloc, 2, 14000),
        ordered(rt, alloc, 4, 90000),
    );
    let three = wide_slot(
        rt,
        alloc,
        0,
        ordered(rt, alloc, 5, 0),
        ordered(rt, alloc, 6, 0),
    );
    let first = part(rt, alloc, 1, 10, 50000, one);
    let second = part(rt, alloc, 2, 11, 50000, two);
    let third = part(rt, alloc, 3, 1, 0, three);
    let sizes = [3, 4, 1, 1, 1, 1];
    wide_programme(rt, alloc, sizes, [0; 6], first, second, third)
}

#[test]
fn knapsack(rt: HostRuntime) {
    let alloc = rt.alloc();
    let programme = knapsack_programme(&rt, alloc);
    costs(&rt, alloc, &programme, PLAIN, 0, 1680007);
    costs(&rt, alloc, &programme, PLAIN, 3, 1010007);
    costs(&rt, alloc, &programme, PLAIN, 4, 954007);
    costs(&rt, alloc, &programme, PLAIN, 6, 954007);
    costs(&rt, alloc, &programme, PLAIN, 7, 284007);
}

/// Where both indexes are clustered on one table, the one that saves more is taken alone, however large the budget is.
#[test]
fn clustered_knapsack(rt: HostRuntime) {
    let alloc = rt.alloc();
    let programme = knapsack_programme(&rt, alloc);
    let tables = [5, 5, 0, 0, 0, 0];
    costs(&rt, alloc, &programme, tables, 3, 1010007);
    costs(&rt, alloc, &programme, tables, 4, 954007);
    costs(&rt, alloc, &programme, tables, 7, 954007);
    costs(&rt, alloc, &programme, tables, 1000, 954007);
}
