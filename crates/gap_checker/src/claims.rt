//! What a certificate claims beside its tree, and judging it.
ghost use Rattle.std.specs.Option.{ForSome};
ghost use Rattle.std.specs.Prelude.{◌≡◌, List, ◌+◌, ◌*◌, ◌≤◌, All, Some, None, IfOk, IfErr, OnOk};
ghost use Rattle.adv_base.specs.Configs as configs;
ghost use Rattle.adv_base.specs.Named.{NamesWork};
ghost use Rattle.adv_base.specs.Settings.{the_setting};
ghost use Rattle.adv_base.specs.declared.limits.TheConstants.{MOST_CANDIDATES, MOST_INDEXES, MOST_UPKEEP};
ghost use Rattle.bip_model.specs.Trees as trees;
ghost use Rattle.bip_model.specs.declared.answer.Node as nodes;
ghost use Rattle.certificate.specs.Heads.{HeadLimits};
ghost use Rattle.certificate.specs.Limits as limits;
ghost use Rattle.plan_model.specs.Totals as totals;
ghost use Rattle.plan_model.specs.declared.plan.TheConstants.{MOST_COST};
ghost use Rattle.gap_checker.specs.At.{cert_at};
ghost use Rattle.gap_checker.specs.Faults as faults;
ghost use Rattle.gap_checker.specs.Views as views;
ghost use Rattle.gap_checker.specs.inner.Claims as claims;
ghost use Rattle.gap_checker.specs.inner.Judges as judges;
ghost use Rattle.gap_checker.specs.inner.Memos.{IsMemo};
ghost use Rattle.gap_checker.specs.inner.Parts.{AreDesks, HasDesk};

use crate::desk::Desk;
use crate::fault::CheckFault;
use crate::judge::Judge;
use crate::memo::{Memo, statement_at};
use crate::multipliers::{Rents, Terms};
use crate::planning::plan_cost;
use crate::uses::judge_pairs;
use adv_base::{Config, NoMemory, Setting, Statement, first_clash};
use certificate::{Cert, Head, SparseSet};
use hypo_indexes::{config_upkeep, kept_upkeep};
use std::alloc::Global;

/// What a certificate claims: its version, the budget in pages, the numbers of the chosen candidates, what the workload
/// costs under them, the bound, and the sets of multipliers that the leaves of its tree name.
#[derive(Clone, Copy)]
pub(crate) struct Claims<'a> {
    pub version: u8,
    pub budget: u64,
    pub config: &'a [u16],
    pub cost: u128,
    pub bound: i128,
    pub sets: &'a [SparseSet],
}

impl<'a> Claims<'a> {
    /// The claims of a certificate.
    pub(crate) fn of_cert(cert: &'a Cert) -> Claims<'a>
        requires { limits.CertLimits cert.now }
        ensures limits { claims.KeepsLimits result }
        ensures same { claims.cert_with result cert.now.tree ≡ cert.now }
    {
        Claims {
            version: cert.version,
            budget: cert.budget,
            config: cert.config.as_slice(),
            cost: cert.cost,
            bound: cert.bound,
            sets: cert.sets.as_slice(),
        }
    }

    /// The claims of a head.
    pub(crate) fn of_head(head: &'a Head) -> Claims<'a>
        requires { HeadLimits head.now }
        ensures limits { claims.KeepsLimits result }
        ensures same { (tree : List nodes.Node) → claims.cert_with result tree ≡ cert_at head.now tree }
    {
        Claims {
            version: head.version,
            budget: head.budget,
            config: head.config.as_slice(),
            cost: head.cost,
            bound: head.bound,
            sets: head.sets.as_slice(),
        }
    }
}

/// The first number past the candidates.
fn first_past(numbers: &[u16], count: usize) -> Option<u16>
    ensures found { ForSome result (claims.IsFirstPast numbers.now count) }
    ensures none { result ≡ None → All (λ n. n ≤ count) numbers.now }
{
    for i in 0..numbers.len() {
        if numbers[i] as usize > count {
            return Some(numbers[i]);
        }
    }
    None
}

/// A configuration with one candidate more.
fn with_candidate(config: &Config, number: u16) -> Config
    requires some { 1 ≤ number }
    requires within { number ≤ MOST_CANDIDATES }
    ensures { result ≡ trees.with_candidate config.now number }
{
    let mut on = config.on;
    on[number as usize - 1] = true;
    Config { on }
}

/// The configuration of the candidates with these numbers, which rise.
pub fn config_with(numbers: &[u16]) -> Config
    requires { limits.Rise 1 numbers.now }
    ensures { result ≡ views.config_with numbers.now }
{
    let mut config = Config::none();
    for number in numbers {
        config = with_candidate(&config, *number);
    }
    config
}

/// What a statement costs under a configuration, without its weight: a least plan and the upkeep of all indexes.
fn statement_cost(
    alloc: Global,
    setting: &Setting<'_>,
    statement: &Statement,
    desk: &mut Option<Desk<'_>>,
    config: &Config,
    number: u16,
) -> Result<u128, NoMemory>
    requires named { NamesWork setting.now.cat.now statement.now.work }
    requires desk_is { HasDesk (the_setting setting.now) statement.now desk.old }
    ensures cost { IfOk result (totals.IsCost setting.now.cat.now setting.now.shapes.now config.now statement.now.work) }
    ensures most { IfOk result (λ cost. cost ≤ MOST_COST + (MOST_INDEXES + MOST_CANDIDATES) * MOST_UPKEEP) }
    ensures desk { OnOk result (HasDesk (the_setting setting.now) statement.now desk.new) }
{
    let terms = Terms {
        config,
        rents: Rents {
            mu: 0,
            entries: &[],
        },
    };
    let plan = plan_cost(alloc, setting, statement, desk, &terms, number)?;
    let kept = kept_upkeep(setting.cat, statement);
    Ok(plan + (kept + config_upkeep(setting.cat, statement, setting.shapes, config)))
}

/// What the workload costs under a configuration.
fn total_cost(
    alloc: Global,
    setting: &Setting<'_>,
    desks: &mut [Option<Desk<'_>>],
    config: &Config,
) -> Result<u128, NoMemory>
    requires desks_are { AreDesks (the_setting setting.now) desks.old }
    ensures desks { OnOk result (AreDesks (the_setting setting.now) desks.new) }
    ensures total { IfOk result (totals.IsTotal setting.now.cat.now setting.now.shapes.now config.now setting.now.statements.now) }
{
    let mut total: u128 = 0;
    'statements: for i in 0..setting.statements.len() {
        let statement = statement_at(setting, i);
        let desk = &mut desks[i];
        let cost = statement_cost(alloc, setting, statement, desk, config, i as u16 + 1)?;
        total += statement.weight as u128 * cost;
    }
    Ok(total)
}

impl Judge<'_> {
    /// The configuration that is claimed, where its numbers are those of candidates that fit the budget.
    fn judge_config(&self) -> Result<Config, CheckFault>
        requires { judges.IsJudge self.now }
        ensures config { IfOk result (λ config. config ≡ views.config_with self.now.claims.config.now) }
        ensures members { OnOk result (configs.IsConfigOf self.now.setting.now.shapes.now (views.config_with self.now.claims.config.now)) }
        ensures fits { OnOk result (configs.Fits self.now.setting.now.cat.now self.now.setting.now.shapes.now (views.config_with self.now.claims.config.now) self.now.claims.budget) }
        ensures fault { IfErr result (judges.IsFaultFor self.now) }
    {
        let numbers = self.claims.config;
        if let Some(number) = first_past(numbers, self.setting.shapes.len()) {
            return Err(CheckFault::BadConfig(number));
        }
        let config = config_with(numbers);
        let size = self.space.pages(&config);
        if size > self.claims.budget {
            return Err(CheckFault::OverBudget(size as u128, self.claims.budget));
        }
        if let Some((first, second)) = first_clash(self.setting.shapes, &config) {
            return Err(CheckFault::Clash(first, second));
        }
        Ok(config)
    }

    /// Judges all that is claimed but the bound.
    pub(crate) fn judge_claims(&self, alloc: Global, memo: &mut Memo<'_>) -> Result<(), CheckFault>
        requires judge { judges.IsJudge self.now }
        requires memo_is { IsMemo (judges.setting_of self.now) self.now.claims.sets.now memo.old }
        ensures memo { OnOk result (IsMemo (judges.setting_of self.now) self.now.claims.sets.now memo.new) }
        ensures sound { OnOk result (judges.AreSound self.now) }
        ensures fault { IfErr result (judges.IsFaultFor self.now) }
    {
        let config = self.judge_config()?;
        let total = total_cost(alloc, self.setting, memo.desks.as_mut_slice(), &config)?;
        if total != self.claims.cost {
            return Err(CheckFault::CostDiffers(self.claims.cost, total));
        }
        judge_pairs(self.setting, self.claims.sets)?;
        Ok(())
    }
}
