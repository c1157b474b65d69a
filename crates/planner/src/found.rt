//! The least plan of a task.
ghost use Rattle.std.specs.Prelude.{◌≡◌, ◌<◌, IfOk};
ghost use Rattle.adv_base.specs.OfferTables.{HasOffers};
ghost use Rattle.plan_model.specs.declared.plan.TheConstants.{MOST_COST};
ghost use Rattle.plan_model.specs.Plans.{IsWhole};
ghost use Rattle.plan_model.specs.Costs.{whole_cost};
ghost use Rattle.plan_model.specs.Least.{Least};
ghost use Rattle.planner.specs.Sorts.{SortsWanted};
ghost use Rattle.planner.specs.Tables.{Holds, task_of};

use crate::build::build;
use crate::search::Search;
use crate::whole::{least_shape, sorts_body};
use adv_base::NoMemory;
use plan_model::{Offers, Task, Whole};
use std::alloc::{AllocError, Global};

/// A whole plan and its cost, in thousandths of a page read.
#[derive(Drop)]
pub struct Found {
    pub cost: u128,
    pub plan: Whole,
}

/// The least plan, from the table of a search.
fn whole_of<O: Offers>(alloc: Global, search: &Search, offers: &O) -> Result<Found, AllocError>
    requires offers { HasOffers (task_of search.now).slots (O.table offers.now) }
    requires holds { Holds search.now (O.table offers.now) }
    ensures valid { IfOk result (λ found. IsWhole (task_of search.now) (O.table offers.now) found.plan) }
    ensures costs { IfOk result (λ found. whole_cost (task_of search.now) (O.table offers.now) found.plan ≡ found.cost) }
    ensures least { IfOk result (λ found. Least (task_of search.now) (O.table offers.now) found.cost) }
    ensures most { IfOk result (λ found. found.cost < MOST_COST) }
    ensures sorts { IfOk result (λ found. SortsWanted (task_of search.now) found.plan.body) }
{
    offers.limits();
    let ways = &search.ways;
    let cells = search.cells.as_slice();
    let shape = least_shape(ways, cells);
    let full = ways.task.rows.len() - 1;
    let sorts = sorts_body(shape.group);
    let body = build(alloc, ways, cells, offers, full, shape.front, sorts)?;
    Ok(Found {
        cost: shape.cost,
        plan: Whole {
            body,
            group: shape.group,
            final_sort: shape.final_sort,
        },
    })
}

/// A least plan of a task over a table of offers, with its cost. The plan is valid and whole, it costs `cost`, which is
/// less than 10^21, and no valid whole plan costs less: over all bushy trees, merges on every crossing edge in both
/// directions, hash joins, sorts under merges and groups by any list, both ways to group, and final sorts. Which of several
/// least plans is given is left open. Each sort in the body is by the list to group by, or else to order by, or by a need
/// of an edge. Each slot has an offer. The search is that of System R (Selinger and others, 1979), over bushy trees and
/// with hash joins. `NoMemory` is want of memory.
pub fn least<O: Offers>(alloc: Global, task: &Task, offers: &O) -> Result<Found, NoMemory>
    requires { HasOffers task.now.slots (O.table offers.now) }
    ensures valid { IfOk result (λ found. IsWhole task.now (O.table offers.now) found.plan) }
    ensures costs { IfOk result (λ found. whole_cost task.now (O.table offers.now) found.plan ≡ found.cost) }
    ensures least { IfOk result (λ found. Least task.now (O.table offers.now) found.cost) }
    ensures most { IfOk result (λ found. found.cost < MOST_COST) }
    ensures sorts { IfOk result (λ found. SortsWanted task.now found.plan.body) }
{
    let mut search = Search::new(alloc, task)?;
    let _ = search.cost(offers);
    let found = whole_of(alloc, &search, offers)?;
    Ok(found)
}
