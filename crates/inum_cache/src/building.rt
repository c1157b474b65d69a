//! How a cache is built.
ghost use Rattle.std.specs.Prelude.{◌≡◌, ◌≤◌, ◌<◌, All, IfOk, IfErr, Err};
ghost use Rattle.adv_base.specs.declared.limits.TheConstants.{MOST_COMBINATIONS};
ghost use Rattle.plan_model.specs.Orders as interesting;
ghost use Rattle.inum_cache.specs.Numbering as numbering;
ghost use Rattle.plan_model.specs.Combinations.{AreEnough, IsIn};
ghost use Rattle.inum_cache.specs.Templates.{FitsOrders};
ghost use Rattle.inum_cache.specs.inner.Cells.{IsThin};
ghost use Rattle.inum_cache.specs.Caches as caches;

use crate::cache::Cache;
use crate::choices::Choices;
use crate::fault::CacheFault;
use crate::pass::Pass;
use crate::top::enough_templates;
use adv_base::limits::MOST_COMBINATIONS;
use adv_base::{List, NoMemory};
use interesting_orders::{combinations, slot_orders};
use plan_model::{Task, Template};
use planner::ways_of;
use std::alloc::Global;

/// The interesting orders of each slot.
fn choices_of(alloc: Global, task: &Task) -> Result<Choices, NoMemory>
    ensures { IfOk result (λ choices. numbering.AreOrders task.now choices.orders) }
{
    let mut orders = Vec::new(alloc);
    for slot in 0..task.slots {
        let own = slot_orders(alloc, task, slot)?;
        orders.push(own)?;
    }
    Ok(Choices {
        orders: List { items: orders },
    })
}

/// The templates of the combinations that are kept.
fn templates_of(
    alloc: Global,
    task: &Task,
    choices: &Choices,
    count: usize,
) -> Result<List<Template>, NoMemory>
    requires { numbering.AreOrders task.now choices.now.orders }
    ensures enough { IfOk result (λ templates. AreEnough task.now (IsIn task.now templates)) }
    ensures thin { IfOk result (λ templates. IsThin choices.now.orders templates) }
    ensures fit { IfOk result (λ templates. All (FitsOrders choices.now.orders) templates) }
{
    let ways = ways_of(alloc, task)?;
    let pass = Pass { ways, choices };
    enough_templates(alloc, &pass, count)
}

/// The cache of a task of so many combinations.
fn made(alloc: Global, task: &Task, count: usize) -> Result<Cache, NoMemory>
    ensures { IfOk result (λ cache. caches.IsCacheOf task.now cache) }
{
    let choices = choices_of(alloc, task)?;
    let templates = templates_of(alloc, task, &choices, count)?;
    Ok(Cache { choices, templates })
}

/// The cache of a task: one template for each combination of interesting orders that no weaker one replaces, where one
/// is weaker if it asks of each slot for a front of what the other asks, and replaces it if it costs no more. Costs come
/// from one pass over the sets of slots, which keeps for each set, and each front of an order that an operator above can
/// want, templates that are enough (INUM's cache, over System R's interesting orders). Beside the cache it takes what the
/// pass keeps, and one number for each combination. `TooManyCombinations` comes where the task has more than
/// `MOST_COMBINATIONS`, with their number; `Memory` is want of memory.
pub fn build(alloc: Global, task: &Task) -> Result<Cache, CacheFault>
    ensures made { IfOk result (λ cache. caches.IsCacheOf task.now cache) }
    ensures many { MOST_COMBINATIONS < interesting.combinations task.now → result ≡ Err (CacheFault.TooManyCombinations (interesting.combinations task.now)) }
    ensures few { interesting.combinations task.now ≤ MOST_COMBINATIONS → IfErr result (λ fault. fault ≡ CacheFault.Memory) }
{
    let count = combinations(task);
    if count > MOST_COMBINATIONS {
        return Err(CacheFault::TooManyCombinations(count));
    }
    match made(alloc, task, count as usize) {
        Ok(cache) => Ok(cache),
        Err(_) => Err(CacheFault::Memory),
    }
}
