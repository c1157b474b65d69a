//! `cost`: the price of a workload over the indexes that exist.
ghost use Rattle.std.specs.Prelude.{◌≡◌, ◌<◌, IfOk, All, length, Some, None};
ghost use Rattle.adv_base.specs.Named.{NamesWork};
ghost use Rattle.plan_model.specs.Totals as totals;
ghost use Rattle.plan_model.specs.declared.plan.TheConstants.{MOST_COST, MOST_TOTAL};
ghost use Rattle.adv_base.specs.Settings.{the_setting};
ghost use Rattle.report.specs.Texts.{FitsSetting};
ghost use Rattle.cophy_core.specs.Causes.{most_statement_cost, IsBounded};
ghost use Rattle.cophy_core.specs.commands.Cost as spec;

use crate::planned::plan_block;
use crate::statements::upkeep_of;
use crate::tally::Tally;
use adv_base::{Config, NoMemory, Setting, Statement, Work};
use report::{Done, Prices};
use std::alloc::Global;

/// What a least plan of a statement costs under a configuration. An INSERT has none.
fn plan_cost(
    alloc: Global,
    setting: &Setting<'_>,
    config: &Config,
    work: &Work,
) -> Result<u128, NoMemory>
    requires { NamesWork setting.now.cat.now work.now }
    ensures least { IfOk result (totals.IsPlanCost setting.now.cat.now setting.now.shapes.now config.now work.now) }
    ensures bound { IfOk result (λ cost. cost < MOST_COST) }
{
    match work.block() {
        Some(block) => {
            let found = plan_block(alloc, setting, config, block)?;
            Ok(found.cost)
        }
        None => Ok(0),
    }
}

/// What a statement costs under a configuration, without its weight: a least plan and the upkeep of all indexes.
fn statement_cost(
    alloc: Global,
    setting: &Setting<'_>,
    config: &Config,
    statement: &Statement,
) -> Result<u128, NoMemory>
    requires { NamesWork setting.now.cat.now statement.now.work }
    ensures cost { IfOk result (totals.IsCost setting.now.cat.now setting.now.shapes.now config.now statement.now.work) }
    ensures bound { IfOk result (λ cost. cost < most_statement_cost) }
{
    let plan = plan_cost(alloc, setting, config, &statement.work)?;
    Ok(plan + upkeep_of(setting, config, statement))
}

/// The cost of each statement under a configuration, in thousandths of a sequential page read, and the sum of weight times
/// cost.
pub(crate) fn prices_of(
    alloc: Global,
    setting: &Setting<'_>,
    config: &Config,
) -> Result<Prices, NoMemory>
    ensures no_size { IfOk result (λ prices. prices.size ≡ None) }
    ensures costs { IfOk result (λ prices. totals.AreCosts setting.now.cat.now setting.now.shapes.now config.now setting.now.statements.now prices.costs) }
    ensures sum { IfOk result (λ prices. prices.total ≡ totals.weighted_sum setting.now.statements.now prices.costs) }
    ensures each { IfOk result (λ prices. length prices.costs ≡ length setting.now.statements.now) }
    ensures bound { IfOk result (λ prices. All (λ cost. cost < most_statement_cost) prices.costs) }
    ensures total { IfOk result (λ prices. prices.total < MOST_TOTAL) }
{
    let mut tally = Tally::new(alloc);
    'statements: for at in 0..setting.statements.len() {
        let statement = &setting.statements[at];
        let cost = statement_cost(alloc, setting, config, statement)?;
        tally.add(statement, cost)?;
    }
    Ok(tally.prices(None))
}

/// The prices of all statements over the indexes that exist. Each cost is that of a least plan (System R's search, over
/// bushy plans) and of the upkeep of the indexes that the statement writes; an INSERT has no plan.
pub(crate) fn cost(alloc: Global, setting: &Setting<'_>) -> Result<Done, NoMemory>
    ensures gives { IfOk result (spec.Gives (the_setting setting.now)) }
    ensures fits { IfOk result (FitsSetting (Some (the_setting setting.now))) }
    ensures bound { IfOk result IsBounded }
{
    let none = Config::none();
    let prices = prices_of(alloc, setting, &none)?;
    Ok(Done::Priced(prices))
}
