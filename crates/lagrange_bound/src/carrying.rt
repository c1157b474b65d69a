//! Bounds in parts: what each plan costs at a node, and what a bound makes of that.
ghost use Rattle.std.specs.Prelude.{◌≡◌, ◌+◌, ◌*◌, ◌≤◌, if◌then◌else◌, false, not, All, drop, length, sum_by};
ghost use Rattle.adv_base.specs.Configs.{has_candidate};
ghost use Rattle.adv_base.specs.declared.limits.TheConstants.{MOST_PAGES, MOST_RENT, MOST_STATEMENTS, MOST_WEIGHT};
ghost use Rattle.bip_model.specs.Values as values;
ghost use Rattle.bip_model.specs.Views.{AreMultipliers};
ghost use Rattle.lagrange_bound.specs.Bounds as bounds;
ghost use Rattle.lagrange_bound.specs.Rented as rented;

use crate::bounds::value_of_plans;
use crate::candidates::available;
use crate::earnings::earned_rents;
use crate::kept::Terms;
use crate::plan_costs::rented_cost;
use adv_base::Config;
use bip_model::{Fix, Grant, Multipliers, NO_ROWS, Part, Programme, Rows, part_grants};

/// Writes the plan cost of each part.
pub(crate) fn write_costs(parts: &[Part], config: &Config, rents: &[u64], costs: &mut [u128])
    requires place_each { length costs.old ≡ length parts.now }
    requires rent_each { length rents.now ≡ sum_by values.part_grants parts.now }
    requires limit { All (λ rent. rent ≤ MOST_RENT) rents.now }
    ensures { costs.new ≡ rented.plan_costs config.now parts.now rents.now }
{
    let mut rows = NO_ROWS;
    let mut at = 0;
    for i in 0..parts.len() {
        let part = &parts[i];
        let priced = rented_cost(part, config, rents, at, &mut rows);
        costs[i] = priced.cost;
        at = priced.next;
    }
}

/// Writes what the plan of each part costs at a node under multipliers. Takes no memory.
#[tactic(auto, unfolding(bip_model::specs::Values::grant_count))]
pub fn terms(
    programme: &Programme,
    budget: u64,
    fix: &Fix,
    multipliers: &Multipliers,
    into: &mut Terms,
)
    requires budget { budget ≤ MOST_PAGES }
    requires multipliers { AreMultipliers programme.now multipliers.now }
    requires one_each { length into.old.least ≡ length programme.now.parts }
    ensures { into.new.least ≡ bounds.costs_at programme.now budget fix.now multipliers.now }
{
    let config = available(programme, budget, fix);
    write_costs(
        programme.parts.as_slice(),
        &config,
        multipliers.lambda.as_slice(),
        into.least.items.as_mut_slice(),
    );
}

/// Whether one of two holds alone.
pub(crate) fn one_alone(a: bool, b: bool) -> bool
    ensures { result ≡ (if a then not b else b) }
{
    if a { !b } else { b }
}

/// Whether a grant of a slot is of a candidate that only one of two configurations has.
fn differs_at(grants: &[Grant], from: &Config, to: &Config) -> bool
    ensures { result ≡ false → All (λ grant. has_candidate from.now grant.candidate ≡ has_candidate to.now grant.candidate) grants.now }
{
    for grant in grants {
        if one_alone(from.has(grant.candidate), to.has(grant.candidate)) {
            return true;
        }
    }
    false
}

/// Whether a grant of a part is of such a candidate.
fn differs(part: &Part, from: &Config, to: &Config) -> bool
    ensures { result ≡ false → All (λ slot. All (λ grant. has_candidate from.now grant.candidate ≡ has_candidate to.now grant.candidate) slot.grants) part.now.slots }
{
    for slot in part.slots.as_slice() {
        if differs_at(slot.grants.as_slice(), from, to) {
            return true;
        }
    }
    false
}

/// The plan cost of a part where the candidates that may be used change: the old one unless a grant is of one that does.
fn carried_cost(
    part: &Part,
    from: &Config,
    to: &Config,
    rents: &[u64],
    at: usize,
    old: u128,
    rows: &mut Rows,
) -> u128
    requires room { at + values.part_grants part.now ≤ length rents.now }
    requires limit { All (λ rent. rent ≤ MOST_RENT) rents.now }
    requires old { old ≡ rented.rented_cost from.now part.now (drop at rents.now) }
    ensures { result ≡ rented.rented_cost to.now part.now (drop at rents.now) }
{
    if differs(part, from, to) {
        return rented_cost(part, to, rents, at, rows).cost;
    }
    old
}

/// Writes the plan cost of each part where the candidates that may be used change.
fn carry_costs(
    parts: &[Part],
    from: &Config,
    to: &Config,
    rents: &[u64],
    old: &[u128],
    costs: &mut [u128],
)
    requires place_each { length costs.old ≡ length parts.now }
    requires rent_each { length rents.now ≡ sum_by values.part_grants parts.now }
    requires limit { All (λ rent. rent ≤ MOST_RENT) rents.now }
    requires old { old.now ≡ rented.plan_costs from.now parts.now rents.now }
    ensures { costs.new ≡ rented.plan_costs to.now parts.now rents.now }
{
    let mut rows = NO_ROWS;
    let mut at = 0;
    for i in 0..parts.len() {
        let part = &parts[i];
        let cost = carried_cost(part, from, to, rents, at, old[i], &mut rows);
        costs[i] = cost;
        at += part_grants(part);
    }
}

/// Writes the terms at a node from those at another: a part is priced anew exactly where one of its grants is of a candidate
/// that may be used at one of the two nodes alone. Takes no memory.
#[tactic(auto, unfolding(bip_model::specs::Values::grant_count))]
pub fn carry(
    programme: &Programme,
    budget: u64,
    from: &Fix,
    to: &Fix,
    multipliers: &Multipliers,
    old: &Terms,
    into: &mut Terms,
)
    requires budget { budget ≤ MOST_PAGES }
    requires multipliers { AreMultipliers programme.now multipliers.now }
    requires old { old.now.least ≡ bounds.costs_at programme.now budget from.now multipliers.now }
    requires one_each { length into.old.least ≡ length programme.now.parts }
    ensures { into.new.least ≡ bounds.costs_at programme.now budget to.now multipliers.now }
{
    let before = available(programme, budget, from);
    let after = available(programme, budget, to);
    carry_costs(
        programme.parts.as_slice(),
        &before,
        &after,
        multipliers.lambda.as_slice(),
        old.least.as_slice(),
        into.least.items.as_mut_slice(),
    );
}

/// The sum of weight times cost.
pub(crate) fn weighted_costs(parts: &[Part], costs: &[u128]) -> u128
    requires few { length parts.now ≤ MOST_STATEMENTS }
    requires one_each { length costs.now ≡ length parts.now }
    requires limit { All (λ cost. cost ≤ values.MOST_PLAN) costs.now }
    ensures exact { result ≡ rented.weighted_costs parts.now costs.now }
    ensures most { result ≤ MOST_STATEMENTS * (MOST_WEIGHT * values.MOST_PLAN) }
{
    let mut sum = 0;
    for i in 0..parts.len() {
        sum += parts[i].weight as u128 * costs[i];
    }
    sum
}

/// The Lagrangian value of a node, as `bound` tells it, from the terms there. Takes no memory.
#[tactic(auto, unfolding(crate::specs::Bounds::lagrangian, bip_model::specs::Values::grant_count))]
pub fn total(
    programme: &Programme,
    budget: u64,
    fix: &Fix,
    multipliers: &Multipliers,
    at: &Terms,
) -> i128
    requires budget { budget ≤ MOST_PAGES }
    requires multipliers { AreMultipliers programme.now multipliers.now }
    requires terms { at.now.least ≡ bounds.costs_at programme.now budget fix.now multipliers.now }
    ensures exact { result ≡ bounds.lagrangian programme.now budget fix.now multipliers.now }
    ensures summands { bounds.AreSummandsBelow programme.now budget fix.now multipliers.now }
{
    let parts = programme.parts.as_slice();
    let costs = at.least.as_slice();
    let plans = weighted_costs(parts, costs);
    let rents = earned_rents(parts, multipliers.lambda.as_slice());
    value_of_plans(programme, budget, fix, multipliers, plans, &rents)
}
