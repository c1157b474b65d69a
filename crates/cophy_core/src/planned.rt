//! Least plans of blocks.
ghost use Rattle.std.specs.Prelude.{◌≡◌, ◌<◌, IfOk};
ghost use Rattle.access_paths.specs.ConfigOffers.{table_of};
ghost use Rattle.adv_base.specs.Named.{NamesBlock};
ghost use Rattle.adv_base.specs.Offers.{offers};
ghost use Rattle.plan_model.specs.BlockTask.{IsTaskOf};
ghost use Rattle.plan_model.specs.Costs.{whole_cost};
ghost use Rattle.plan_model.specs.Least.{Least};
ghost use Rattle.plan_model.specs.Plans.{IsWhole};
ghost use Rattle.plan_model.specs.declared.plan.TheConstants.{MOST_COST};

use access_paths::{ConfigOffers, task};
use adv_base::{Block, Config, NoMemory, Setting};
use plan_model::{Offers, Task, Whole};
use planner::least;
use std::alloc::Global;

/// A block's task and its offers under a configuration, and a least plan over them with its cost.
#[derive(Drop)]
pub(crate) struct Planned {
    pub task: Task,
    pub offers: ConfigOffers,
    pub plan: Whole,
    pub cost: u128,
}

/// A least plan of a block under a configuration (System R's search, over bushy plans). It costs less than 10^21.
pub(crate) fn plan_block(
    alloc: Global,
    setting: &Setting<'_>,
    config: &Config,
    block: &Block,
) -> Result<Planned, NoMemory>
    requires { NamesBlock setting.now.cat.now block.now }
    ensures task { IfOk result (λ p. IsTaskOf setting.now.cat.now block.now p.task) }
    ensures offers { IfOk result (λ p. table_of p.offers.slots.items ≡ offers setting.now.cat.now block.now setting.now.shapes.now config.now) }
    ensures valid { IfOk result (λ p. IsWhole p.task (table_of p.offers.slots.items) p.plan) }
    ensures costs { IfOk result (λ p. whole_cost p.task (table_of p.offers.slots.items) p.plan ≡ p.cost) }
    ensures least { IfOk result (λ p. Least p.task (table_of p.offers.slots.items) p.cost) }
    ensures bound { IfOk result (λ p. p.cost < MOST_COST) }
{
    let task = task(alloc, setting.cat, block)?;
    let offers = ConfigOffers::new(alloc, setting.cat, block, setting.shapes, config)?;
    offers.limits();
    let found = least(alloc, &task, &offers)?;
    Ok(Planned {
        task,
        offers,
        plan: found.plan,
        cost: found.cost,
    })
}
