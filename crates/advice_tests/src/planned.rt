//! What the planner says that configurations cost, against the programme.
ghost use Rattle.adv_base.specs.Named.{NamesBlock, NamesWork};

use crate::opened::{Opened, open};
use access_paths::{ConfigOffers, task};
use adv_base::{Block, Config, NoMemory, Setting, Statement, Work};
use bip_model::value;
use hypo_indexes::{config_upkeep, kept_upkeep};
use planner::least;
use std::alloc::Global;
use std::process::Abort;
use tuning::programme;
use workload_gen::make;

/// What a least plan of a block costs under a configuration, by a search of the planner.
fn block_cost(
    alloc: Global,
    setting: &Setting<'_>,
    config: &Config,
    block: &Block,
) -> Result<u128, NoMemory>
    requires { NamesBlock setting.now.cat.now block.now }
{
    let task = task(alloc, setting.cat, block)?;
    let offers = ConfigOffers::new(alloc, setting.cat, block, setting.shapes, config)?;
    let found = least(alloc, &task, &offers)?;
    Ok(found.cost)
}

/// What the plan of a statement costs; an INSERT has none.
fn plan_cost(
    alloc: Global,
    setting: &Setting<'_>,
    config: &Config,
    work: &Work,
) -> Result<u128, NoMemory>
    requires { NamesWork setting.now.cat.now work.now }
{
    match work {
        Work::Select(block) => block_cost(alloc, setting, config, block),
        Work::Update(block, _) => block_cost(alloc, setting, config, block),
        Work::Delete(block) => block_cost(alloc, setting, config, block),
        Work::Insert { .. } => Ok(0),
    }
}

/// What a statement costs, times its weight.
fn weighted_cost(
    rt: &impl Abort,
    alloc: Global,
    setting: &Setting<'_>,
    config: &Config,
    statement: &Statement,
) -> u128
    requires { NamesWork setting.now.cat.now statement.now.work }
{
    let plan = plan_cost(alloc, setting, config, &statement.work).expect(rt, "memory");
    let kept = kept_upkeep(setting.cat, statement);
    let chosen = config_upkeep(setting.cat, statement, setting.shapes, config);
    plan.saturating_add(kept)
        .saturating_add(chosen)
        .saturating_mul(statement.weight as u128)
}

/// What the workload costs under a configuration.
pub(crate) fn planned_total(
    rt: &impl Abort,
    alloc: Global,
    setting: &Setting<'_>,
    config: &Config,
) -> u128 {
    let mut total: u128 = 0;
    for statement in setting.statements {
        total = total.saturating_add(weighted_cost(rt, alloc, setting, config, statement));
    }
    total
}

/// The candidates from one place on, so many of them.
fn candidates_between(from: usize, count: usize) -> Config {
    let mut on = [false; 256];
    for flag in on.iter_mut().skip(from).take(count) {
        *flag = true;
    }
    Config { on }
}

/// The programme and the planner agree on no candidate, on each alone, on each with all behind it.
fn compare(rt: &impl Abort, alloc: Global, opened: &Opened) {
    let setting = opened.setting();
    let made = programme(alloc, &setting).ok().expect(rt, "a programme");
    let count = setting.shapes.len();
    for from in 0..count {
        for some in [0, 1, count] {
            let config = candidates_between(from, some);
            let planned = planned_total(rt, alloc, &setting, &config);
            assert!(rt; value(&made, &config) == planned, "{some} from {from}");
        }
    }
}

/// Twelve statements over three tables, made from each seed.
#[test]
fn values_are_planned_totals(rt: HostRuntime) {
    let alloc = rt.alloc();
    for seed in 1..6 {
        let texts = make(alloc, seed, 3, 12).expect(&rt, "memory");
        let opened = open(
            &rt,
            alloc,
            texts.catalogue.as_slice(),
            texts.workload.as_slice(),
        );
        compare(&rt, alloc, &opened);
    }
}
