//! What the least plans of all statements cost, and what is kept of that from leaf to leaf.
ghost use Rattle.std.specs.Prelude.{◌≡◌, ◌+◌, ◌*◌, ◌<◌, ◌≤◌, All, IfOk, OnOk, None, Some, length, slice_get};
ghost use Rattle.adv_base.specs.Settings.{the_setting};
ghost use Rattle.adv_base.specs.declared.limits.TheConstants.{MOST_SETS, MOST_STATEMENTS, MOST_WEIGHT};
ghost use Rattle.bip_model.specs.StandsFor.{AreEach};
ghost use Rattle.certificate.specs.Limits.{EntriesFrom};
ghost use Rattle.plan_model.specs.Totals as totals;
ghost use Rattle.plan_model.specs.declared.plan.TheConstants.{MOST_COST};
ghost use Rattle.gap_checker.specs.inner.Charges.{charge_of};
ghost use Rattle.gap_checker.specs.inner.Memos as memos;
ghost use Rattle.gap_checker.specs.inner.Parts as kept;
ghost use Rattle.gap_checker.specs.inner.Sums as sums;

use crate::changes::{Changes, changes_of, touches};
use crate::desk::Desk;
use crate::multipliers::Terms;
use crate::part::Part;
use crate::planning::plan_cost;
use adv_base::{Config, NoMemory, Setting, Statement};
use certificate::SparseSet;
use std::alloc::Global;

/// What a least plan of each statement costs under a set's rents, by the statement's place: 0 for an INSERT. Each is the cost
/// under the candidates that were available at the last leaf that names the set; before the first no cost is known.
#[derive(Drop)]
pub(crate) struct Last {
    pub config: Option<Config>,
    pub costs: Vec<u128>,
}

/// What plans each statement, and for each set of multipliers, of which the first has no rents, the last costs.
#[derive(Drop)]
pub(crate) struct Memo<'a> {
    pub desks: Vec<Option<Desk<'a>>>,
    pub lasts: Vec<Last>,
}

/// The desk of each statement.
fn desks_of<'a>(alloc: Global, parts: &'a [Option<Part>]) -> Result<Vec<Option<Desk<'a>>>, NoMemory>
    ensures { IfOk result (λ desks. AreEach kept.IsDeskOf parts.now desks.items) }
{
    let mut desks = Vec::new(alloc);
    for part in parts {
        let desk = Desk::of_part(alloc, part)?;
        desks.push(desk)?;
    }
    Ok(desks)
}

/// Room for the costs of so many statements.
fn blank_last(alloc: Global, statements: usize) -> Result<Last, NoMemory>
    ensures { IfOk result (memos.IsBlank statements) }
{
    Ok(Last {
        config: None,
        costs: vec![in alloc; 0; statements]?,
    })
}

/// The same for each of so many sets.
fn blank_lasts(alloc: Global, statements: usize, sets: usize) -> Result<Vec<Last>, NoMemory>
    ensures count { IfOk result (λ lasts. length lasts.items ≡ sets) }
    ensures blank { IfOk result (λ lasts. All (memos.IsBlank statements) lasts.items) }
{
    let mut lasts = Vec::new(alloc);
    for _set in 0..sets {
        let last = blank_last(alloc, statements)?;
        lasts.push(last)?;
    }
    Ok(lasts)
}

impl<'a> Memo<'a> {
    /// What is kept before the first leaf of a certificate with these sets.
    pub(crate) fn new(
        alloc: Global,
        setting: &Setting<'_>,
        parts: &'a [Option<Part>],
        sets: &[SparseSet],
    ) -> Result<Memo<'a>, NoMemory>
        requires parts_are { AreEach (kept.HasPart (the_setting setting.now)) setting.now.statements.now parts.now }
        requires few { length sets.now ≤ MOST_SETS }
        ensures { IfOk result (memos.IsMemo (the_setting setting.now) sets.now) }
    {
        let desks = desks_of(alloc, parts)?;
        let lasts = blank_lasts(alloc, setting.statements.len(), sets.len() + 1)?;
        Ok(Memo { desks, lasts })
    }
}

/// The statement of a place.
pub(crate) fn statement_at<'b>(setting: &Setting<'b>, place: usize) -> &'b Statement
    requires { place < length setting.now.statements.now }
    ensures { slice_get setting.now.statements.now place ≡ Some result.now }
{
    match setting.statements.get(place) {
        Some(statement) => statement,
        None => unreachable!(),
    }
}

/// Finds anew what the statements cost that changes touch; the other costs stay.
fn renew_costs(
    alloc: Global,
    setting: &Setting<'_>,
    desks: &mut [Option<Desk<'_>>],
    costs: &mut [u128],
    terms: &Terms<'_>,
    changes: &Changes,
) -> Result<(), NoMemory>
    requires desks_are { kept.AreDesks (the_setting setting.now) desks.old }
    requires rise { EntriesFrom 0 terms.now.rents.entries.now }
    requires count { length costs.old ≡ length setting.now.statements.now }
    requires most { All (λ cost. cost ≤ MOST_COST) costs.old }
    requires kept { memos.AreRenewed (the_setting setting.now) terms.now.config.now (charge_of terms.now) changes.now 0 costs.old }
    ensures desks { OnOk result (kept.AreDesks (the_setting setting.now) desks.new) }
    ensures most { OnOk result (All (λ cost. cost ≤ MOST_COST) costs.new) }
    ensures costs { OnOk result (memos.AreCostsOf (the_setting setting.now) terms.now.config.now (charge_of terms.now) costs.new) }
{
    'statements: for i in 0..setting.statements.len() {
        let statement = statement_at(setting, i);
        if !touches(changes, &statement.work) {
            continue;
        }
        let desk = &mut desks[i];
        let cost = plan_cost(alloc, setting, statement, desk, terms, i as u16 + 1)?;
        costs[i] = cost;
    }
    Ok(())
}

/// The sum of weight times cost.
fn weighted_sum(setting: &Setting<'_>, costs: &[u128]) -> u128
    requires count { length costs.now ≡ length setting.now.statements.now }
    requires most { All (λ cost. cost ≤ MOST_COST) costs.now }
    ensures exact { result ≡ totals.weighted_sum setting.now.statements.now costs.now }
    ensures most { result ≤ MOST_STATEMENTS * (MOST_WEIGHT * MOST_COST) }
{
    let mut sum: u128 = 0;
    for i in 0..setting.statements.len() {
        let statement = statement_at(setting, i);
        sum += statement.weight as u128 * costs[i];
    }
    sum
}

/// The sum of weight times least plan cost over what is available, with rents. What a statement costs is found anew where a
/// candidate on one of its tables became available or ceased to be since the set's last leaf.
pub(crate) fn weighted_plans(
    alloc: Global,
    setting: &Setting<'_>,
    desks: &mut [Option<Desk<'_>>],
    last: &mut Last,
    terms: &Terms<'_>,
) -> Result<u128, NoMemory>
    requires desks_are { kept.AreDesks (the_setting setting.now) desks.old }
    requires last_is { memos.IsLast (the_setting setting.now) (charge_of terms.now) last.old }
    requires rise { EntriesFrom 0 terms.now.rents.entries.now }
    ensures desks { OnOk result (kept.AreDesks (the_setting setting.now) desks.new) }
    ensures last { OnOk result (memos.IsLast (the_setting setting.now) (charge_of terms.now) last.new) }
    ensures sum { IfOk result (sums.IsRentedSum (the_setting setting.now) terms.now.config.now (charge_of terms.now)) }
    ensures most { IfOk result (λ sum. sum ≤ MOST_STATEMENTS * (MOST_WEIGHT * MOST_COST)) }
{
    let changes = changes_of(setting.shapes, &last.config, terms.config);
    let costs = last.costs.as_mut_slice();
    renew_costs(alloc, setting, desks, costs, terms, &changes)?;
    last.config = Some(*terms.config);
    Ok(weighted_sum(setting, last.costs.as_slice()))
}
