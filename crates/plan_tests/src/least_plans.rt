//! Least plans of tasks that are worked out by hand, and of made ones against a search that tries all plans.
ghost use Rattle.std.specs.Prelude.{◌≤◌};

mod changed;
mod seen;
mod yardstick;

use crate::least_plans::changed::Changed;
use crate::least_plans::seen::Seen;
use crate::least_plans::yardstick::least_by_trying;
use crate::made::{Draws, made_table, made_task};
use crate::table::{Table, table_of};
use crate::tasks::task_ahead;
use adv_base::NoMemory;
use plan_model::{Task, plan_cost};
use planner::{Found, Search, least};
use std::alloc::Global;
use std::process::Abort;

pub(crate) fn planned(alloc: Global, task: &Task, table: &Table) -> Result<Found, NoMemory> {
    least(alloc, task, table)
}

/// What one search says that least plans cost: over the first offers, over the changed ones, and over the first again.
fn searched(
    alloc: Global,
    task: &Task,
    changed: &Changed<Table>,
) -> Result<(u128, u128, u128), NoMemory>
    requires { changed.now.slot ≤ task.now.slots }
{
    let mut search = Search::new(alloc, task)?;
    let first = search.cost(changed.first);
    let second = search.cost_from(changed, changed.slot);
    let third = search.cost(changed.first);
    Ok((first, second, third))
}

/// Tasks with a table's prices and indexes, and what their least plans cost.
///
/// - A table of 1000 rows on 20 pages: read whole, sorted, read through an index that fetches each row, one that covers, or one in whose
///   order the rows stand; and grouped by a column of 100 values.
/// - Two tables of 1000 rows: joined on a column that leads an index of the first, in the index's order, which a merge keeps, or in one
///   that the index doesn't give; and joined on the columns of two indexes, also by edges that are written again, or the other way round.
/// - A chain of four tables whose ends are filtered to one row each, where the best plan that isn't bushy costs 137868; and customers,
///   their orders and the orders' items, grouped by two columns of an order.
const CASES: &str = "|1 1000|-||30000||30000
|1 1000|-|a0|30000|4013000:0|80000
|1 1000|-|a0|30000|13000:0|13000
|1 1000|-|a0|30000|33000:0|33000
|1 1000|a0 100|#1|30000||49500
a0b0|1 1000 1000 1000|-|a0a1|30000 30000|14000:01|114000
a0b0|1 1000 1000 1000|-|a0a1|30000 30000|14000:0|128000
a0b0|1 1000 1000 1000|-||30000 30000||94000
a0b0|1 1000 1000 1000|-||30000 30000|13000:0 13000:0|46000
a0b0a0b0a0b1|1 1000 1000 1000|-||30000 30000|13000:0 13000:0|46000
a0b0a0b0a0b1|1 1000 1000 1000|-||30000 30000|13000:0 13000:1|46000
a0b0b0a0b1a0|1 1000 1000 1000|-||30000 30000|13000:0 13000:0|46000
a0b0b0a0b1a0|1 1000 1000 1000|-||30000 30000|13000:0 13000:1|46000
a1b0b1c0c1d0|1 1 1000 1 1000 1000 100000 100 1 1 1000 1 1 1 100 1|-||30000 30000 30000 30000||136082
a0b1c0b0|1 3000 5224 1045 600000 1800000000 20898 4181|b0b2 4181|#1b2|550000 4500000 21000000||31347433";

/// The least plan of a task costs what is said, by the planner, by trying all plans, and by the plan that is given.
fn costs(rt: &impl Abort, alloc: Global, task: &Task, table: &Table, cost: u128) {
    let found = planned(alloc, task, table).expect(rt, "memory");
    let tried = least_by_trying(alloc, task, table).expect(rt, "memory");
    assert!(rt; (found.cost, tried) == (cost, cost));
    assert!(rt; plan_cost(task, table, &found.plan) == Some(cost));
}

#[test]
fn least_plans_by_hand(rt: HostRuntime) {
    let alloc = rt.alloc();
    for case in CASES.lines() {
        let (task, rest) = task_ahead(&rt, alloc, case);
        let (heaps, rest) = rest.split_once('|').expect(&rt, "prices");
        let (indexes, cost) = rest.split_once('|').expect(&rt, "indexes");
        let table = table_of(&rt, alloc, heaps, indexes);
        let cost = cost.parse::<u64>().expect(&rt, "a cost");
        costs(&rt, alloc, &task, &table, cost as u128);
    }
}

/// No plan of any kind costs less than the one that is given, over 400 tasks of at most three slots, in whose least plans
/// each operator stands many times; nor does one cost less than what a search says over the same offers and over such as
/// differ from a slot on.
#[test]
fn none_is_cheaper(rt: HostRuntime) {
    let alloc = rt.alloc();
    let mut draws = Draws::new(1979);
    let mut seen = Seen::new();
    for number in 0..400 {
        let task = made_task(&rt, alloc, &mut draws);
        let table = made_table(alloc, &mut draws, task.slots, 0).expect(&rt, "memory");
        let found = planned(alloc, &task, &table).expect(&rt, "memory");
        assert!(rt;
            found.cost == least_by_trying(alloc, &task, &table).expect(&rt, "memory"),
            "task {number}"
        );
        assert!(rt;
            plan_cost(&task, &table, &found.plan) == Some(found.cost),
            "task {number}"
        );
        let other = made_table(alloc, &mut draws, task.slots, 0).expect(&rt, "memory");
        let slot = draws.below(task.slots);
        let changed = Changed {
            first: &table,
            second: &other,
            slot,
        };
        let after = least_by_trying(alloc, &task, &changed).expect(&rt, "memory");
        assert!(rt;
            searched(alloc, &task, &changed).expect(&rt, "memory")
                == (found.cost, after, found.cost),
            "task {number}"
        );
        seen.found(&found);
    }
    assert!(rt; seen.rarest() >= 5, "{seen:?}");
}
