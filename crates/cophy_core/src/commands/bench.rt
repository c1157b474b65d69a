//! `bench`: advice on a workload that is made.
ghost use Rattle.std.specs.Prelude.{◌≡◌, ◌≤◌, IfOk, IfErr, Some, length, sum_by};
ghost use Rattle.adv_base.specs.Limits.Settings as settings;
ghost use Rattle.adv_base.specs.declared.limits.TheConstants.{MOST_PAGES, MOST_SLOTS};
ghost use Rattle.adv_base.specs.Settings.{the_setting};
ghost use Rattle.candidates.specs.Candidates.{AreCandidates};
ghost use Rattle.report.specs.Texts.{FitsSetting};
ghost use Rattle.cophy_core.specs.Causes.{IsBounded};
ghost use Rattle.cophy_core.specs.Stops.{StopsAt, LacksProgramme};
ghost use Rattle.cophy_core.specs.commands.Bench as spec;

use crate::commands::advise::advice_on;
use crate::stop::Stop;
use adv_base::{Catalogue, Setting, Work};
use command_line::DEFAULT_NODES;
use report::{Bench, Done};
use std::alloc::Global;

/// How many tables a catalogue has.
fn table_count(cat: &Catalogue) -> u32
    ensures { result ≡ length cat.now.tables }
{
    cat.tables.len() as u32
}

/// How many slots a statement has.
fn slot_count(work: &Work) -> u32
    ensures exact { result ≡ settings.slot_count work.now }
    ensures few { result ≤ MOST_SLOTS }
{
    match work {
        Work::Select(block) | Work::Update(block, _) | Work::Delete(block) => {
            block.slots.len() as u32
        }
        Work::Insert { .. } => 0,
    }
}

/// How many slots the statements of a setting have together.
fn slots_in_all(setting: &Setting<'_>) -> u32
    ensures { result ≡ sum_by (λ statement. settings.slot_count statement.work) setting.now.statements.now }
{
    let mut slots = 0;
    for statement in setting.statements {
        slots += slot_count(&statement.work);
    }
    slots
}

/// What `advise` gives on the setting of a made workload with the nodes that it takes where no word says how many, with how
/// large that is. Or the first refusal of `advise`.
pub(crate) fn bench(
    alloc: Global,
    setting: &Setting<'_>,
    left_over: u64,
    budget: u64,
) -> Result<Done, Stop>
    requires found { AreCandidates setting.now.cat.now setting.now.statements.now setting.now.shapes.now left_over }
    requires budget { budget ≤ MOST_PAGES }
    ensures gives { IfOk result (spec.Gives budget (the_setting setting.now)) }
    ensures fits { IfOk result (FitsSetting (Some (the_setting setting.now))) }
    ensures bound { IfOk result IsBounded }
    ensures stop { IfErr result (StopsAt (LacksProgramme (the_setting setting.now))) }
{
    let advice = advice_on(alloc, setting, left_over, budget, DEFAULT_NODES)?;
    Ok(Done::Benched(Bench {
        tables: table_count(setting.cat),
        statements: setting.statements.len() as u32,
        slots: slots_in_all(setting),
        advice,
    }))
}
