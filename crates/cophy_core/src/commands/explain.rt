//! `explain`: a least plan of one statement under a configuration.
ghost use Rattle.std.specs.Prelude.{◌≡◌, IfOk, IfErr, Some};
ghost use Rattle.adv_base.specs.Named.{NamesBlock, NamesWork};
ghost use Rattle.adv_base.specs.Settings.{the_setting};
ghost use Rattle.report.specs.Texts.{FitsSetting};
ghost use Rattle.cophy_core.specs.Causes.{IsBounded};
ghost use Rattle.cophy_core.specs.Stops.{StopsAt};
ghost use Rattle.cophy_core.specs.commands.Explain as spec;

use crate::planned::plan_block;
use crate::read_conf;
use crate::statements::{statement_of, upkeep_of};
use crate::stop::Stop;
use access_paths::labels;
use adv_base::{Block, Bytes, Config, NoMemory, Setting, Statement};
use plan_model::plan_text;
use report::{Done, Explained, Refusal};
use std::alloc::Global;

/// A least plan of a block with its lines, beside the upkeep of its statement.
fn explained_block(
    alloc: Global,
    setting: &Setting<'_>,
    config: &Config,
    number: u32,
    upkeep: u128,
    block: &Block,
) -> Result<Explained, NoMemory>
    requires { NamesBlock setting.now.cat.now block.now }
    ensures by_plan { IfOk result (spec.ExplainsBlock (the_setting setting.now) config.now block.now) }
    ensures number { IfOk result (λ explained. explained.number ≡ number) }
    ensures upkeep { IfOk result (λ explained. explained.upkeep ≡ upkeep) }
    ensures bound { IfOk result (λ explained. IsBounded (Done.Explained explained)) }
{
    let found = plan_block(alloc, setting, config, block)?;
    let labels = labels(alloc, setting.cat, block, setting.shapes, config)?;
    let text = plan_text(alloc, &found.task, &found.offers, &labels, &found.plan)?;
    Ok(Explained {
        number,
        cost: found.cost,
        plan: Some(found.plan),
        upkeep,
        text,
    })
}

/// An INSERT has no plan, and costs its upkeep alone.
fn explained_insert(alloc: Global, number: u32, upkeep: u128) -> Explained
    ensures without { spec.ExplainsInsert result }
    ensures number { result.number ≡ number }
    ensures upkeep { result.upkeep ≡ upkeep }
    ensures bound { IsBounded (Done.Explained result) }
{
    Explained {
        number,
        cost: 0,
        plan: None,
        upkeep,
        text: Bytes {
            items: Vec::new(alloc),
        },
    }
}

/// The statement of a number, explained.
fn explained_statement(
    alloc: Global,
    setting: &Setting<'_>,
    config: &Config,
    number: u32,
    statement: &Statement,
) -> Result<Explained, NoMemory>
    requires { NamesWork setting.now.cat.now statement.now.work }
    ensures explains { IfOk result (spec.Explains (the_setting setting.now) config.now number statement.now.work) }
    ensures bound { IfOk result (λ explained. IsBounded (Done.Explained explained)) }
{
    let upkeep = upkeep_of(setting, config, statement);
    match statement.work.block() {
        Some(block) => explained_block(alloc, setting, config, number, upkeep, block),
        None => Ok(explained_insert(alloc, number, upkeep)),
    }
}

/// A least plan of the statement of a number, from 1, under the configuration that the bytes of a file give, with the
/// upkeep of all indexes that the statement writes; or the first refusal: no such statement, a line of the file.
pub(crate) fn explain(
    alloc: Global,
    setting: &Setting<'_>,
    conf: &[u8],
    number: u32,
) -> Result<Done, Stop>
    ensures gives { IfOk result (spec.Gives number conf.now (the_setting setting.now)) }
    ensures fits { IfOk result (FitsSetting (Some (the_setting setting.now))) }
    ensures bound { IfOk result IsBounded }
    ensures stop { IfErr result (StopsAt (spec.Refuses number conf.now (the_setting setting.now))) }
{
    let statement = match statement_of(setting.statements, number) {
        Some(statement) => statement,
        None => {
            let count = setting.statements.len() as u32;
            return Err(Stop::Refused(Refusal::NoStatement(number, count)));
        }
    };
    let config = match read_conf(conf, setting.shapes.len() as u16) {
        Ok(config) => config,
        Err(line) => return Err(Stop::Refused(Refusal::BadConf(line))),
    };
    let explained = explained_statement(alloc, setting, &config, number, statement)?;
    Ok(Done::Explained(explained))
}
