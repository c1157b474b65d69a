//! Caches of tasks that are worked out by hand, and of made ones against the planner.
ghost use Rattle.std.specs.Prelude.{◌<◌};

use crate::least_plans::planned;
use crate::made::{Draws, made_indexes, made_table, made_task};
use crate::table::Table;
use crate::tasks::{edge, star, task, task_ahead};
use adv_base::NoMemory;
use inum_cache::{Cache, CacheFault, build};
use plan_model::{Task, TaskEdge};
use std::alloc::Global;
use std::process::Abort;

/// What a least plan costs, by the planner and by a cache of the task.
fn costs(
    alloc: Global,
    task: &Task,
    cache: &Cache,
    table: &Table,
) -> Result<(u128, u128), NoMemory> {
    let found = planned(alloc, task, table)?;
    Ok((found.cost, cache.cost(table)))
}

/// Tasks with their templates: what each needs of the first two slots, and its internal cost. A table of 1000 rows in some order, or in
/// none; and two such tables that are joined, where a merge wants both in the order of their columns, and one order alone is of no use.
const TEMPLATES: &str = "|1 1000|-|a0|0 0 50000;1 0 0
|1 1000|-||0 0 0
a0b0|1 1000 1000 1000|-||0 0 34000;1 1 20000";

#[test]
fn templates_by_hand(rt: HostRuntime) {
    let alloc = rt.alloc();
    for case in TEMPLATES.lines() {
        let (task, wanted) = task_ahead(&rt, alloc, case);
        let cache = build(alloc, &task).expect(&rt, "a cache");
        let mut found = String::new(alloc);
        for template in cache.templates() {
            let needs = template.needs;
            let internal = template.internal;
            let (first, second) = (needs[0], needs[1]);
            assert!(rt; needs == [first, second, 0, 0, 0, 0, 0, 0]);
            let stop = if found.is_empty() { "" } else { ";" };
            write!(found, "{stop}{first} {second} {internal}").expect(&rt, "memory");
        }
        assert!(rt; found.as_str() == wanted, "{case}");
    }
}

/// A star of five slots has 14 orders at its hub, four at three others and five at the last.
#[test]
fn too_many_combinations(rt: HostRuntime) {
    let star = star(&rt, rt.alloc());
    let fault = build(rt.alloc(), &star).err();
    assert!(rt; fault == Some(CacheFault::TooManyCombinations(4480)));
}

/// The cost from the cache is that of the planner, over 300 tasks of at most three slots and four tables of offers each,
/// in two of which the prices of indexes are raised as by multipliers.
#[test]
fn as_the_planner(rt: HostRuntime) {
    let alloc = rt.alloc();
    let mut draws = Draws::new(2007);
    let mut kept: u64 = 0;
    for number in 0..300 {
        let task = made_task(&rt, alloc, &mut draws);
        let cache = build(alloc, &task).expect(&rt, "a cache");
        kept = kept.saturating_add(cache.templates().len() as u64);
        for raise in [0, 0, 1, 60_000] {
            let table = made_table(alloc, &mut draws, task.slots, raise).expect(&rt, "memory");
            let (planned, cached) = costs(alloc, &task, &cache, &table).expect(&rt, "memory");
            assert!(rt; cached == planned, "task {number}");
        }
    }
    assert!(rt; kept > 600);
}

/// Edges that tie so many columns of the first slot, each to the same column of the second.
fn ties(rt: &impl Abort, alloc: Global, columns: u8) -> Vec<TaskEdge> {
    let mut edges = Vec::new(alloc);
    for column in 0..columns {
        let column = column as u16;
        edges.push(edge(0, column, 1, column)).expect(rt, "memory");
    }
    edges
}

/// The cost from a cache of the task is that of the planner over twelve tables of offers, with indexes of so many
/// columns; and the cache has more templates than there are columns.
fn agrees(rt: &impl Abort, alloc: Global, draws: &mut Draws, task: &Task, columns: u8)
    requires { 0 < columns }
{
    let cache = build(alloc, task).expect(rt, "a cache");
    assert!(rt; cache.templates().len() > columns as usize);
    for number in 0..12 {
        let table = made_indexes(alloc, draws, task.slots, columns).expect(rt, "memory");
        let (planned, cached) = costs(alloc, task, &cache, &table).expect(rt, "memory");
        assert!(rt; cached == planned, "table {number} of {columns} columns");
    }
}

/// The same for a task of two slots that are tied by so many columns.
fn pair_agrees(rt: &impl Abort, alloc: Global, draws: &mut Draws, columns: u8)
    requires { 0 < columns }
{
    let edges = ties(rt, alloc, columns);
    let rows = [1, 1000, 100, 1000];
    let pair = task(rt, alloc, 2, edges.as_slice(), &rows, None, &[]);
    agrees(rt, alloc, draws, &pair, columns)
}

/// The cost from the cache is that of the planner also where slots have more orders than in the drawn tasks: two slots
/// that are tied by 3, by 7 or by 33 columns, and three slots of 3, 4 and 1 orders. A table offers some of the orders.
#[test]
fn many_orders(rt: HostRuntime) {
    let alloc = rt.alloc();
    let mut draws = Draws::new(1990);
    pair_agrees(&rt, alloc, &mut draws, 3);
    pair_agrees(&rt, alloc, &mut draws, 7);
    pair_agrees(&rt, alloc, &mut draws, 33);
    let mut edges = ties(&rt, alloc, 3);
    edges.push(edge(1, 3, 2, 0)).expect(&rt, "memory");
    let rows = [1, 1000, 100, 1000, 1000, 1000, 1000, 1000];
    let chain = task(&rt, alloc, 3, edges.as_slice(), &rows, None, &[]);
    agrees(&rt, alloc, &mut draws, &chain, 4)
}
