//! The least cost over all plans, found by trying them all.
//!
//! For each set of slots, in increasing number, and each order of at most three items it keeps what the cheapest plan of
//! that set costs which delivers that very order. A plan is dropped only beside a cheaper one of the same set and order,
//! so nothing here rests on which orders an operator above may want. No order that a task of these tests asks for is
//! longer than three items.
use adv_base::Item;
use plan_model::{Offers, Task, TaskEdge};
use std::alloc::{AllocError, Global};

/// The cost where there is no plan.
const NO_PLAN: u128 = u128::MAX;

/// What the cheapest plans of a set cost, by the number of the order that they deliver: those without a sort at the top,
/// and all.
#[derive(Drop)]
struct Costs {
    unsorted: Vec<u128>,
    any: Vec<u128>,
}

fn lower(costs: &mut [u128], order: usize, cost: u128) {
    if order < costs.len() && cost < costs[order] {
        costs[order] = cost;
    }
}

fn cost_at(costs: &[u128], order: usize) -> u128 {
    match costs.get(order) {
        Some(cost) => *cost,
        None => NO_PLAN,
    }
}

fn least_of(costs: &[u128]) -> u128 {
    let mut least = NO_PLAN;
    for cost in costs {
        least = least.min(*cost);
    }
    least
}

fn has_slot(set: usize, slot: u8) -> bool {
    slot < 8 && set & (1 << slot) != 0
}

fn is_column_of(set: usize, item: &Item) -> bool {
    match item {
        Item::Up { slot, .. } => has_slot(set, *slot),
        Item::Down { slot, .. } => has_slot(set, *slot),
        Item::Made(_) => false,
    }
}

fn rows_of(task: &Task, set: usize) -> u128 {
    match task.rows.as_slice().get(set) {
        Some(rows) => *rows as u128,
        None => 0,
    }
}

fn sort_price(task: &Task, rows: u128) -> u128 {
    let digits = 128 - rows.leading_zeros().min(128);
    (task.rates.sort_cpu as u128)
        .saturating_mul(rows)
        .saturating_mul(digits as u128)
}

fn merge_price(task: &Task, a: usize, b: usize) -> u128 {
    let read = rows_of(task, a).saturating_add(rows_of(task, b));
    let joined = rows_of(task, a | b);
    (task.rates.merge_cpu as u128)
        .saturating_mul(read)
        .saturating_add((task.rates.row_cpu as u128).saturating_mul(joined))
}

fn hash_price(task: &Task, a: usize, b: usize) -> u128 {
    let hashed = rows_of(task, b).saturating_mul(2);
    let read = rows_of(task, a).saturating_add(hashed);
    let joined = rows_of(task, a | b);
    (task.rates.hash_cpu as u128)
        .saturating_mul(read)
        .saturating_add((task.rates.row_cpu as u128).saturating_mul(joined))
}

/// The items by which plans are sorted and read in order: the first two columns of each slot, upwards, and what else stands
/// in the list to order by.
fn items_of(alloc: Global, task: &Task) -> Result<Vec<Item>, AllocError> {
    let mut items = Vec::new(alloc);
    for slot in 0..task.slots {
        items.push(Item::Up { slot, column: 0 })?;
        items.push(Item::Up { slot, column: 1 })?;
    }
    for item in task.order.as_slice() {
        if !items.contains(item) {
            items.push(*item)?;
        }
    }
    Ok(items)
}

/// All orders of at most three of the items.
fn orders_of(alloc: Global, items: &[Item]) -> Result<Vec<Vec<Item>>, AllocError> {
    let mut orders = Vec::new(alloc);
    orders.push(Vec::new(alloc))?;
    for first in items {
        orders.push(Vec::from_slice(alloc, &[*first])?)?;
        for second in items {
            orders.push(Vec::from_slice(alloc, &[*first, *second])?)?;
            for third in items {
                orders.push(Vec::from_slice(alloc, &[*first, *second, *third])?)?;
            }
        }
    }
    Ok(orders)
}

/// Reads a slot by each of its offers.
fn read<O: Offers>(unsorted: &mut [u128], orders: &[Vec<Item>], table: &O, slot: u8) {
    for offer in 0..table.count(slot) {
        let delivered = table.order(slot, offer);
        for number in 0..orders.len() {
            if orders[number].as_slice() == delivered {
                lower(unsorted, number, table.price(slot, offer) as u128);
            }
        }
    }
}

/// Whether an edge has one end in each of two sets.
fn crosses(edge: &TaskEdge, a: usize, b: usize) -> bool {
    (has_slot(a, edge.left) && has_slot(b, edge.right))
        || (has_slot(a, edge.right) && has_slot(b, edge.left))
}

/// Whether an order begins as an edge wants its end in the set.
fn serves(order: &[Item], edge: &TaskEdge, set: usize) -> bool {
    let need = if has_slot(set, edge.left) {
        edge.left_need
    } else {
        edge.right_need
    };
    match need {
        None => true,
        Some(item) => order.first().copied() == Some(item),
    }
}

/// Joins the plans of two sets on an edge, by a merge and by hashing.
fn join(
    unsorted: &mut [u128],
    orders: &[Vec<Item>],
    task: &Task,
    edge: &TaskEdge,
    (left, right): (&Costs, &Costs),
    (a, b): (usize, usize),
) {
    let hash = least_of(left.unsorted.as_slice())
        .saturating_add(least_of(right.unsorted.as_slice()))
        .saturating_add(hash_price(task, a, b));
    lower(unsorted, 0, hash);
    let mut side = NO_PLAN;
    for number in 0..orders.len() {
        if serves(orders[number].as_slice(), edge, b) {
            side = side.min(cost_at(right.any.as_slice(), number));
        }
    }
    let rest = side.saturating_add(merge_price(task, a, b));
    for number in 0..orders.len() {
        if serves(orders[number].as_slice(), edge, a) {
            lower(
                unsorted,
                number,
                cost_at(left.any.as_slice(), number).saturating_add(rest),
            );
        }
    }
}

/// Joins two sets on each edge between them.
fn join_sets(
    unsorted: &mut [u128],
    orders: &[Vec<Item>],
    task: &Task,
    done: &[Costs],
    a: usize,
    b: usize,
) {
    if a >= done.len() || b >= done.len() {
        return;
    }
    for edge in task.edges.as_slice() {
        if crosses(edge, a, b) {
            join(unsorted, orders, task, edge, (&done[a], &done[b]), (a, b));
        }
    }
}

/// Sorts a set by each order of its columns.
fn sort(any: &mut [u128], orders: &[Vec<Item>], set: usize, cost: u128) {
    for number in 0..orders.len() {
        if orders[number].iter().all(|item| is_column_of(set, item)) {
            lower(any, number, cost);
        }
    }
}

/// The costs of a set, from those of all sets of smaller number.
fn costs_of<O: Offers>(
    alloc: Global,
    orders: &[Vec<Item>],
    task: &Task,
    table: &O,
    done: &[Costs],
    set: usize,
) -> Result<Costs, AllocError> {
    let mut unsorted = vec![in alloc; NO_PLAN; orders.len()]?;
    for slot in 0..task.slots {
        if slot < 8 && set == 1 << slot {
            read(unsorted.as_mut_slice(), orders, table, slot);
        }
    }
    for a in 1..set {
        if a & set == a {
            join_sets(unsorted.as_mut_slice(), orders, task, done, a, set ^ a);
        }
    }
    let mut any = Vec::from_slice(alloc, unsorted.as_slice())?;
    let sorted = least_of(unsorted.as_slice()).saturating_add(sort_price(task, rows_of(task, set)));
    sort(any.as_mut_slice(), orders, set, sorted);
    Ok(Costs { unsorted, any })
}

/// What a plan costs with what it needs to end in the order that is asked for, where so many rows come of it.
fn ordered(task: &Task, order: &[Item], cost: u128, rows: u128) -> u128 {
    let wanted = task.order.as_slice();
    let sorted = if wanted.is_empty() {
        NO_PLAN
    } else {
        cost.saturating_add(sort_price(task, rows))
    };
    if order.starts_with(wanted) {
        sorted.min(cost)
    } else {
        sorted
    }
}

/// What the cheapest whole plans over bodies of an order cost: each way to group, with and without a final sort.
fn ended(task: &Task, order: &[Item], unsorted: u128, any: u128, rows: u128) -> u128 {
    let Some(group) = &task.group else {
        return ordered(task, order, unsorted, rows);
    };
    let hashing = (task.rates.hash_cpu as u128)
        .saturating_mul(2)
        .saturating_mul(rows);
    let grouping = (task.rates.group_cpu as u128).saturating_mul(rows);
    let by_hash = ordered(
        task,
        &[],
        unsorted.saturating_add(hashing),
        task.group_rows as u128,
    );
    if !order.starts_with(group.as_slice()) {
        return by_hash;
    }
    let by_order = ordered(
        task,
        group.as_slice(),
        any.saturating_add(grouping),
        task.group_rows as u128,
    );
    by_hash.min(by_order)
}

/// The least cost of a whole plan, where edges, indexes and the list to group by have no other items than those by which
/// plans are sorted here.
pub fn least_by_trying<O: Offers>(
    alloc: Global,
    task: &Task,
    table: &O,
) -> Result<u128, AllocError> {
    let items = items_of(alloc, task)?;
    let orders = orders_of(alloc, items.as_slice())?;
    let mut done = Vec::new(alloc);
    for set in 0..task.rows.len() {
        let costs = costs_of(alloc, orders.as_slice(), task, table, done.as_slice(), set)?;
        done.push(costs)?;
    }
    let mut least = NO_PLAN;
    if let Some(all) = done.last() {
        let rows = rows_of(task, task.rows.len().wrapping_sub(1));
        for number in 0..orders.len() {
            let unsorted = cost_at(all.unsorted.as_slice(), number);
            let any = cost_at(all.any.as_slice(), number);
            least = least.min(ended(task, orders[number].as_slice(), unsorted, any, rows));
        }
    }
    Ok(least)
}
