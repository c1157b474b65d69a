//! `whatif`: the price of a workload under a configuration.
ghost use Rattle.std.specs.Prelude.{◌≡◌, ◌+◌, ◌<◌, IfOk, IfErr, All, length, slice_get, Some};
ghost use Rattle.adv_base.specs.Configs as configs;
ghost use Rattle.bip_model.specs.StandsFor.{StandsFor};
ghost use Rattle.plan_model.specs.Totals as totals;
ghost use Rattle.plan_model.specs.declared.plan.TheConstants.{MOST_COST, MOST_TOTAL};
ghost use Rattle.adv_base.specs.Settings.{the_setting};
ghost use Rattle.report.specs.Texts.{FitsSetting};
ghost use Rattle.cophy_core.specs.Causes.{most_statement_cost, IsBounded};
ghost use Rattle.cophy_core.specs.Stops.{StopsAt};
ghost use Rattle.cophy_core.specs.commands.WhatIf as spec;
ghost use Rattle.cophy_core.specs.inner.Parts.{ArePartsFrom};

use crate::programmes::programme_of;
use crate::read_conf;
use crate::statements::upkeep_of;
use crate::stop::Stop;
use crate::tally::Tally;
use adv_base::{Config, NoMemory, Setting, Statement};
use bip_model::{Part, Programme, part_cost, value_is_total};
use hypo_indexes::config_pages;
use report::{Done, Prices, Refusal};
use std::alloc::Global;

/// What a least plan of a statement costs under a configuration, with the parts of the statements behind it. `parts` are
/// those of this statement, `at` from 0, and of all behind it: the first tells the cost. An INSERT has no part and no plan.
fn plan_cost<'a>(
    setting: &Setting<'_>,
    config: &Config,
    at: usize,
    statement: &Statement,
    parts: &'a [Part],
) -> (u128, &'a [Part])
    requires found { slice_get setting.now.statements.now at ≡ Some statement.now }
    requires parts { ArePartsFrom (the_setting setting.now) at parts.now }
    ensures cost { totals.IsPlanCost setting.now.cat.now setting.now.shapes.now config.now statement.now.work result.0 }
    ensures bound { result.0 < MOST_COST }
    ensures rest { ArePartsFrom (the_setting setting.now) (at + 1) result.1.now }
{
    match statement.work.block() {
        Some(_) => {
            value_is_total();
            (part_cost(&parts[0], config), &parts[1..])
        }
        None => (0, parts),
    }
}

/// The cost of each statement under a configuration, in thousandths of a sequential page read, and the sum of weight times
/// cost, with the pages of the configuration.
fn prices_of(
    alloc: Global,
    setting: &Setting<'_>,
    programme: &Programme,
    config: &Config,
) -> Result<Prices, NoMemory>
    requires { StandsFor (the_setting setting.now) programme.now }
    ensures size { IfOk result (λ prices. prices.size ≡ Some (configs.config_pages setting.now.cat.now setting.now.shapes.now config.now)) }
    ensures costs { IfOk result (λ prices. totals.AreCosts setting.now.cat.now setting.now.shapes.now config.now setting.now.statements.now prices.costs) }
    ensures sum { IfOk result (λ prices. prices.total ≡ totals.weighted_sum setting.now.statements.now prices.costs) }
    ensures each { IfOk result (λ prices. length prices.costs ≡ length setting.now.statements.now) }
    ensures bound { IfOk result (λ prices. All (λ cost. cost < most_statement_cost) prices.costs) }
    ensures total { IfOk result (λ prices. prices.total < MOST_TOTAL) }
{
    let mut tally = Tally::new(alloc);
    let mut parts = programme.parts.as_slice();
    'statements: for at in 0..setting.statements.len() {
        let statement = &setting.statements[at];
        let (plan, rest) = plan_cost(setting, config, at, statement, parts);
        let cost = plan + upkeep_of(setting, config, statement);
        tally.add(statement, cost)?;
        parts = rest;
    }
    let size = config_pages(setting.cat, setting.shapes, config);
    Ok(tally.prices(Some(size as u128)))
}

/// The prices of all statements under the configuration that the bytes of a file give, and the pages of its indexes. Each
/// cost is that of a least plan, as CoPhy's programme of the setting tells it, and of the upkeep of the indexes that the
/// statement writes, those that exist and those of the configuration. Or the first refusal: a line of the file, a statement
/// with too many combinations of interesting orders.
pub(crate) fn what_if(alloc: Global, setting: &Setting<'_>, conf: &[u8]) -> Result<Done, Stop>
    ensures gives { IfOk result (spec.Gives conf.now (the_setting setting.now)) }
    ensures fits { IfOk result (FitsSetting (Some (the_setting setting.now))) }
    ensures bound { IfOk result IsBounded }
    ensures stop { IfErr result (StopsAt (spec.Refuses conf.now (the_setting setting.now))) }
{
    let config = match read_conf(conf, setting.shapes.len() as u16) {
        Ok(config) => config,
        Err(line) => return Err(Stop::Refused(Refusal::BadConf(line))),
    };
    let programme = programme_of(alloc, setting)?;
    let prices = prices_of(alloc, setting, &programme, &config)?;
    Ok(Done::Priced(prices))
}
