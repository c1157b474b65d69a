//! Plan costs that are priced anew in place where a part has a mark, and their weighted sum.
ghost use Rattle.std.specs.Prelude.{◌≡◌, ◌+◌, ◌*◌, ◌<◌, ◌≤◌, ◌^◌, length};
ghost use Rattle.lagrange_bound.specs.Rented as rented;
ghost use Rattle.lagrange_bound.specs.inner.CostsAnew as repriced;

use crate::marked::Marked;
use crate::plan_costs::rented_cost;
use bip_model::Rows;

/// A weighted sum of costs, of which one changes.
fn changed_sum(sum: u128, weight: u32, old: u128, new: u128) -> u128
    requires there { weight * old ≤ sum }
    requires fits { sum + weight * new < 2 ^ 128 }
    ensures { result + weight * old ≡ sum + weight * new }
{
    sum + weight as u128 * new - weight as u128 * old
}

/// Prices the part of a place where it has a mark, and answers the weighted sum of all costs.
fn price_place(
    task: &Marked<'_>,
    place: usize,
    plans: u128,
    costs: &mut [u128],
    rows: &mut Rows,
) -> u128
    requires within { place < length task.now.parts.now }
    requires before { repriced.ArePriced task.now place plans costs.old }
    ensures { repriced.ArePriced task.now (place + 1) result costs.new }
{
    if !task.marks[place] {
        return plans;
    }
    let part = &task.parts[place];
    let cost = rented_cost(part, task.config, task.rents, task.starts[place], rows).cost;
    let sum = changed_sum(plans, part.weight, costs[place], cost);
    costs[place] = cost;
    sum
}

/// Prices the parts that have a mark, where the others are priced already, and answers the weighted sum of all costs.
pub(crate) fn price_marked(
    task: &Marked<'_>,
    plans: u128,
    costs: &mut [u128],
    rows: &mut Rows,
) -> u128
    requires { repriced.ArePriced task.now 0 plans costs.old }
    ensures costs { costs.new ≡ rented.plan_costs task.now.config.now task.now.parts.now task.now.rents.now }
    ensures plans { result ≡ rented.weighted_costs task.now.parts.now costs.new }
{
    let mut sum = plans;
    for place in 0..task.parts.len() {
        sum = price_place(task, place, sum, costs, rows);
    }
    sum
}
