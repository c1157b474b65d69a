//! Costs, refusals and lines of plans that are worked out by hand.
mod advice;
mod steps;

use crate::costs::steps::plan;
use crate::table::{Table, table_of};
use crate::tasks::{task_ahead, task_of};
use adv_base::{List, Name};
use plan_model::{GroupStep, Labels, Task, Whole, plan_cost, plan_text};
use std::alloc::Global;
use std::process::Abort;

/// Tasks with a table's prices and indexes, and plans by their steps, whether they group by hashing (`h`) or by sorting (`g`) and end
/// in a sort (`s`), and their costs; a dash for none.
///
/// - A table of 1000 rows on 20 pages, read whole and sorted, or through an index; the same where its rows stand in the index's order,
///   and where the index covers all columns; where no order is asked for; and grouped by a column of 100 values, ordered by a made item.
/// - Two tables, joined on a column that leads an index of the first. What is refused: a merge whose left side delivers another order,
///   one whose right or left side isn't sorted, one on an edge that isn't there; a sort under a hash join, under a sort, and by a column
///   that isn't below it; a slot that is missing, and one that is read twice.
/// - A chain of four tables whose ends are filtered to one row each: the bushy plan, the best one that isn't, a merge on an edge that
///   doesn't cross, and a hash join of sides that no edge ties. Customers, their orders and the orders' items, grouped by two columns
///   of an order.
/// - Leaves that deliver no order, or the one that is asked for, cost nothing: 50000 and 0 for a list to order by, 34000 and 20000 for a
///   join.
const CASES: &str =
    "|1 1000|-|a0|30000|4013000:0|a0 s 80000;a1 - 4013000;a0 - -;a3 s -;b0 s -;a0 hs -;a0A0 - -
|1 1000|-|a0|30000|33000:0|a1 - 33000
|1 1000|-|a0|30000|13000:0|a1 - 13000
|1 1000|-||30000||a0 - 30000;a0 s -
|1 1000|a0 100|#1|30000||a0 hs 49500;a0A0 gs 88500;a0 gs -;a0 s -;a0 h -;a0A0 hs -;a0X1 gs -
a0b0|1 1000 1000 1000|-|a0a1|30000 30000|14000:01|a1b0B0M0 - 114000;a1b0H. s 128000;b0B0a1M0 - -;a1b0M0 - -;a0b0B0M0 s -;a1b0B0M1 - -;a1b0B0H. s -;a1b0B0B0M0 - -;a1b0A0M0 - -;a1 - -;a1a0H. s -
a1b0b1c0c1d0|1 1 1000 1 1000 1000 100000 100 1 1 1000 1 1 1 100 1|-||30000 30000 30000 30000||b0a0H.B1c0d0H.C0M1 - 136082;c0b0a0H.H.d0H. - 137868;b0a0H.B1c0d0H.C0M2 - -;a0c0H.b0d0H.H. - -
a0b1c0b0|1 3000 5224 1045 600000 1800000000 20898 4181|b0b2 4181|#1b2|550000 4500000 21000000||c0b0a0H.H. hs 31347433
|1 1000|-|a0|0||a0 s 50000
|1 1000|-|a0|0|0:0|a1 - 0
a0b0|1 1000 1000 1000|-||0 0|0:0 0:0|a0b0H. - 34000;a0A0b0B0M0 - 120000;a1b0B0M0 - 70000;a1b1M0 - 20000";

/// Each plan of a list costs what stands beside it.
fn all_cost(rt: &impl Abort, alloc: Global, task: &Task, table: &Table, plans: &str) {
    for case in plans.split(';') {
        let (steps, rest) = case.split_once(' ').expect(rt, "steps");
        let (marks, cost) = rest.split_once(' ').expect(rt, "marks");
        let group = if marks.starts_with("h") {
            GroupStep::Hashed
        } else if marks.starts_with("g") {
            GroupStep::Sorted
        } else {
            GroupStep::Nothing
        };
        let whole = Whole {
            body: plan(rt, alloc, steps),
            group,
            final_sort: marks.ends_with("s"),
        };
        let cost = match cost.parse::<u64>() {
            Ok(cost) => Some(cost as u128),
            Err(_) => None,
        };
        assert!(rt; plan_cost(task, table, &whole) == cost, "{case}");
    }
}

#[test]
fn plans_by_hand(rt: HostRuntime) {
    let alloc = rt.alloc();
    for case in CASES.lines() {
        let (task, rest) = task_ahead(&rt, alloc, case);
        let (heaps, rest) = rest.split_once('|').expect(&rt, "prices");
        let (indexes, plans) = rest.split_once('|').expect(&rt, "indexes");
        let table = table_of(&rt, alloc, heaps, indexes);
        all_cost(&rt, alloc, &task, &table, plans);
    }
}

fn names(rt: &impl Abort, alloc: Global, name: &[u8]) -> List<Name> {
    let mut items = Vec::new(alloc);
    let name = Vec::from_slice(alloc, name).expect(rt, "memory");
    items.push(Name { items: name }).expect(rt, "memory");
    List { items }
}

fn lists(rt: &impl Abort, alloc: Global, name: &[u8]) -> List<List<Name>> {
    let mut items = Vec::new(alloc);
    items.push(names(rt, alloc, name)).expect(rt, "memory");
    List { items }
}

/// The lines of a final sort above a whole table.
#[test]
fn lines_of_a_final_sort(rt: HostRuntime) {
    let alloc = rt.alloc();
    let task = task_of(&rt, alloc, "", "1 1000", "-", "a0");
    let table = table_of(&rt, alloc, "30000", "");
    let labels = Labels {
        slots: names(&rt, alloc, b"t"),
        columns: lists(&rt, alloc, b"c"),
        offers: lists(&rt, alloc, b"heap"),
    };
    let whole = Whole {
        body: plan(&rt, alloc, "a0"),
        group: GroupStep::Nothing,
        final_sort: true,
    };
    assert!(rt; plan_cost(&task, &table, &whole) == Some(80000));
    let text = plan_text(alloc, &task, &table, &labels, &whole).expect(&rt, "memory");
    assert!(rt;
        text.as_slice() == b"final sort t.c cost 80000\n  heap on t cost 30000\n".as_slice()
    );
}
