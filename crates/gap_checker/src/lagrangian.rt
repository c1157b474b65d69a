//! The Lagrangian value of a node.
ghost use Rattle.std.specs.Prelude.{◌≡◌, ◌+◌, ◌-◌, ◌*◌, ◌<◌, ◌≤◌, ◌^◌, IfOk, OnOk, if◌then◌else◌, length, slice_index_or};
ghost use Rattle.adv_base.specs.Configs.{has_candidate};
ghost use Rattle.adv_base.specs.Nodes as nodes;
ghost use Rattle.adv_base.specs.declared.limits.TheConstants.{MOST_CANDIDATES, MOST_PAGE_PRICE, MOST_RENT, MOST_SLOTS, MOST_STATEMENTS, MOST_WEIGHT};
ghost use Rattle.bip_model.specs.Views.{node_of};
ghost use Rattle.certificate.specs.Limits.{EntriesFrom};
ghost use Rattle.plan_model.specs.Lagrangian as lagrangian;
ghost use Rattle.gap_checker.specs.inner.Earnings.{AreEarned, rent_of};
ghost use Rattle.gap_checker.specs.inner.Judges.{IsJudge, setting_of};
ghost use Rattle.gap_checker.specs.inner.Memos as memos;
ghost use Rattle.gap_checker.specs.inner.Parts.{AreDesks};
ghost use Rattle.gap_checker.specs.inner.Sums as sums;

use crate::desk::Desk;
use crate::judge::Judge;
use crate::memo::{Last, weighted_plans};
use crate::multipliers::{Multipliers, Terms};
use adv_base::{Config, NoMemory};
use bip_model::Fix;
use std::alloc::Global;

/// Parts of a whole, in which pages are priced.
const PARTS: u128 = 65536;

/// What a candidate costs where it is chosen: its upkeep and its pages.
fn candidate_cost(judge: &Judge<'_>, mu: u128, a: usize) -> u128
    requires within { a < length judge.now.setting.now.shapes.now }
    requires price { mu ≤ MOST_PAGE_PRICE }
    ensures exact { result ≡ sums.cost_at judge.now.figures.now mu a }
    ensures most { result ≤ sums.most_candidate_cost }
{
    let figures = judge.figures;
    PARTS * figures.upkeep.as_slice()[a] + mu * figures.sizes.as_slice()[a] as u128
}

/// What it earns: the rents of its uses.
fn candidate_rents(set: &Multipliers<'_>, a: usize) -> u128
    requires within { a < length set.now.earned.items }
    requires most { slice_index_or set.now.earned.items a 0 ≤ MOST_STATEMENTS * (MOST_WEIGHT * (MOST_SLOTS * MOST_RENT)) }
    ensures exact { result ≡ sums.rents_at set.now a }
    ensures most { result ≤ sums.most_candidate_rents }
{
    PARTS * set.earned[a]
}

/// What a candidate that is in costs, and else 0.
fn cost_inside(judge: &Judge<'_>, mu: u128, at: &Fix, a: usize) -> u128
    requires within { a < length judge.now.setting.now.shapes.now }
    requires price { mu ≤ MOST_PAGE_PRICE }
    ensures exact { result ≡ (if has_candidate (node_of at.now).inside (a + 1) then sums.cost_at judge.now.figures.now mu a else 0) }
    ensures most { result ≤ sums.most_candidate_cost }
{
    if at.is_in(a as u16 + 1) {
        candidate_cost(judge, mu, a)
    } else {
        0
    }
}

/// What the candidates that are in cost.
fn costs_inside(judge: &Judge<'_>, set: &Multipliers<'_>, at: &Fix) -> u128
    requires price { set.now.rents.mu ≤ MOST_PAGE_PRICE }
    ensures exact { result ≡ lagrangian.costs_inside (setting_of judge.now) (sums.the_multipliers set.now.rents) (node_of at.now) 1 judge.now.setting.now.shapes.now }
    ensures most { result ≤ MOST_CANDIDATES * sums.most_candidate_cost }
{
    let mut sum: u128 = 0;
    for a in 0..judge.setting.shapes.len() {
        sum += cost_inside(judge, set.rents.mu, at, a);
    }
    sum
}

/// What a candidate earns: its rents where it is in; where it is open, as far as they exceed what it costs.
fn earning(judge: &Judge<'_>, set: &Multipliers<'_>, at: &Fix, config: &Config, a: usize) -> u128
    requires within { a < length judge.now.setting.now.shapes.now }
    requires earned { AreEarned (setting_of judge.now) set.now }
    requires price { set.now.rents.mu ≤ MOST_PAGE_PRICE }
    ensures exact { result ≡ (if has_candidate (node_of at.now).inside (a + 1) then sums.rents_at set.now a else (if has_candidate config.now (a + 1) then sums.rents_at set.now a - sums.cost_at judge.now.figures.now set.now.rents.mu a else 0)) }
    ensures most { result ≤ sums.most_candidate_rents }
{
    let rents = candidate_rents(set, a);
    if at.is_in(a as u16 + 1) {
        return rents;
    }
    if config.has(a as u16 + 1) {
        return rents.saturating_sub(candidate_cost(judge, set.rents.mu, a));
    }
    0
}

/// What the candidates that are available earn.
fn earnings(judge: &Judge<'_>, set: &Multipliers<'_>, at: &Fix, config: &Config) -> u128
    requires earned { AreEarned (setting_of judge.now) set.now }
    requires price { set.now.rents.mu ≤ MOST_PAGE_PRICE }
    requires available { config.now ≡ nodes.available judge.now.setting.now.cat.now judge.now.setting.now.shapes.now judge.now.claims.budget (node_of at.now) }
    ensures exact { result ≡ lagrangian.earnings (setting_of judge.now) (sums.the_multipliers set.now.rents) judge.now.claims.budget (node_of at.now) 1 judge.now.setting.now.shapes.now }
    ensures most { result ≤ MOST_CANDIDATES * sums.most_candidate_rents }
{
    let mut sum: u128 = 0;
    for a in 0..judge.setting.shapes.len() {
        sum += earning(judge, set, at, config, a);
    }
    sum
}

/// A number that is taken away.
fn negative(n: u128) -> i128
    requires { n < 2 ^ 127 }
    ensures { result ≡ sums.negated n }
{
    -(n as i128)
}

/// A difference in parts, as a whole number that is rounded up.
pub(crate) fn rounded_up(more: u128, less: u128) -> i128
    requires more_most { more < 2 ^ 127 }
    requires less_most { less < 2 ^ 127 }
    ensures { lagrangian.IsRoundedUp more less result }
{
    if less <= more {
        (more - less).div_ceil(PARTS) as i128
    } else {
        negative((less - more) / PARTS)
    }
}

/// The Lagrangian value of a node under a set of multipliers (CoPhy's programme, with least plans of the planner).
pub(crate) fn lagrangian_value(
    alloc: Global,
    judge: &Judge<'_>,
    desks: &mut [Option<Desk<'_>>],
    last: &mut Last,
    set: &Multipliers<'_>,
    at: &Fix,
) -> Result<i128, NoMemory>
    requires judge { IsJudge judge.now }
    requires desks_are { AreDesks (setting_of judge.now) desks.old }
    requires last_is { memos.IsLast (setting_of judge.now) (rent_of set.now.rents) last.old }
    requires earned { AreEarned (setting_of judge.now) set.now }
    requires price { set.now.rents.mu ≤ MOST_PAGE_PRICE }
    requires rise { EntriesFrom 0 set.now.rents.entries.now }
    ensures desks { OnOk result (AreDesks (setting_of judge.now) desks.new) }
    ensures last { OnOk result (memos.IsLast (setting_of judge.now) (rent_of set.now.rents) last.new) }
    ensures value { IfOk result (lagrangian.IsLagrangian (setting_of judge.now) judge.now.claims.budget (node_of at.now) (sums.the_multipliers set.now.rents)) }
{
    let config = judge.space.available(at);
    let terms = Terms {
        config: &config,
        rents: set.rents,
    };
    let plans = weighted_plans(alloc, judge.setting, desks, last, &terms)?;
    let more = PARTS * (plans + judge.figures.kept) + costs_inside(judge, set, at);
    let less = earnings(judge, set, at, &config) + set.rents.mu * judge.claims.budget as u128;
    Ok(rounded_up(more, less))
}
