//! What each operator of a plan costs by itself, without what stands below it.
//!
//! Every price is a whole number of thousandths of a sequential page read: a rate of the catalogue times rows. The rows are
//! the task's estimates for sets of slots, each from 1 to 10^12, and the rates are at most 10^6, so each price is far
//! below what 128 bits hold. The formulas are in the manner of System R and of PostgreSQL's costsize.c:
//!
//! - a sort takes each row once for each binary digit of their number;
//! - a merge join takes each row of both sides, and each joined row;
//! - a hash join takes each row of its left side once, of its right side, which is hashed, twice, and each joined row;
//! - a sorted group takes each row once, a hashed one twice.
//!
//! Left out on purpose: memory and spilling to disk, caching of pages, parallel workers, start-up costs apart from total
//! ones, widths of rows, and selectivities of an operator's own: the rows of a set are one number whichever plan makes them.
//! The prices of leaves are those of their offers.
ghost use Rattle.std.specs.Prelude.{◌≡◌, ◌+◌, ◌*◌, ◌<◌, ◌≤◌, length};
ghost use Rattle.adv_base.specs.declared.limits.TheConstants.{MOST_RATE, MOST_ROWS};
ghost use Rattle.plan_model.specs.Costs.{rows_in, sort_cost, merge_of, hash_of, group_cost};

use crate::plan::GroupStep;
use crate::task::Task;
use adv_base::binary_digits;

/// The rows of a set of slots.
pub fn rows_of(task: &Task, set: usize) -> u64
    requires { set < length task.now.rows }
    ensures exact { result ≡ rows_in task.now set }
    ensures some { 1 ≤ result }
    ensures most { result ≤ MOST_ROWS }
{
    task.rows.items[set]
}

/// Sorting that many rows.
pub fn sort_price(task: &Task, rows: u64) -> u128
    requires some { 1 ≤ rows }
    requires most { rows ≤ MOST_ROWS }
    ensures exact { result ≡ sort_cost task.now.rates rows }
    ensures most { result ≤ 40 * (MOST_RATE * MOST_ROWS) }
{
    let digits = binary_digits(rows) as u128;
    task.rates.sort_cpu as u128 * (rows as u128 * digits)
}

/// Merging two disjoint sets of slots.
pub fn merge_price(task: &Task, left: usize, right: usize) -> u128
    requires { left + right < length task.now.rows }
    ensures exact { result ≡ merge_of task.now left right }
    ensures most { result ≤ 3 * (MOST_RATE * MOST_ROWS) }
{
    let sides = rows_of(task, left) as u128 + rows_of(task, right) as u128;
    let joined = rows_of(task, left + right) as u128;
    task.rates.merge_cpu as u128 * sides + task.rates.row_cpu as u128 * joined
}

/// Joining two disjoint sets of slots by hashing the right one.
pub fn hash_price(task: &Task, left: usize, right: usize) -> u128
    requires { left + right < length task.now.rows }
    ensures exact { result ≡ hash_of task.now left right }
    ensures most { result ≤ 4 * (MOST_RATE * MOST_ROWS) }
{
    let sides = rows_of(task, left) as u128 + 2 * rows_of(task, right) as u128;
    let joined = rows_of(task, left + right) as u128;
    task.rates.hash_cpu as u128 * sides + task.rates.row_cpu as u128 * joined
}

/// Grouping that many rows.
pub fn group_price(task: &Task, step: GroupStep, rows: u64) -> u128
    requires { rows ≤ MOST_ROWS }
    ensures exact { result ≡ group_cost task.now.rates step rows }
    ensures most { result ≤ 2 * (MOST_RATE * MOST_ROWS) }
{
    match step {
        GroupStep::Nothing => 0,
        GroupStep::Sorted => task.rates.group_cpu as u128 * rows as u128,
        GroupStep::Hashed => 2 * (task.rates.hash_cpu as u128 * rows as u128),
    }
}
