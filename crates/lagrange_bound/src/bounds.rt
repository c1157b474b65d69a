//! The Lagrangian value of a node.
ghost use Rattle.std.specs.Prelude.{◌≡◌, ◌*◌, ◌<◌, ◌≤◌, ◌^◌, ℕ, suc, All, length, sum_by, slice_index_or};
ghost use Rattle.adv_base.specs.declared.limits.TheConstants.{MOST_CANDIDATES, MOST_PAGES, MOST_RENT, MOST_STATEMENTS, MOST_WEIGHT};
ghost use Rattle.bip_model.specs.Values as values;
ghost use Rattle.bip_model.specs.Views.{AreMultipliers};
ghost use Rattle.lagrange_bound.specs.Bounds as bounds;
ghost use Rattle.lagrange_bound.specs.Laws as laws;
ghost use Rattle.lagrange_bound.specs.Rented as rented;
ghost use Rattle.lagrange_bound.specs.inner.Limits as limits;

use crate::candidates::{available, earned_in_all, paid_in_all};
use crate::earnings::Earned;
use crate::walking::earned_cost;
use adv_base::Config;
use adv_base::limits::MOST_CANDIDATES;
use bip_model::{Fix, Multipliers, NO_ROWS, Part, Programme};

/// A difference of parts of 65536, in whole numbers, rounded up.
fn rounded_up(more: u128, less: u128) -> i128
    requires more_fits { more < 2 ^ 126 }
    requires less_fits { less < 2 ^ 126 }
    ensures { result ≡ bounds.rounded_up more less }
{
    (more as i128 - less as i128 + 65535).div_euclid(65536)
}

/// The sum of weight times plan cost, and what the rents of each candidate bring in.
#[derive(Clone, Copy)]
struct Sums {
    plans: u128,
    earned: Earned,
}

/// Both sums of parts, in one walk over their grants.
fn both_sums(parts: &[Part], config: &Config, rents: &[u64]) -> Sums
    requires few { length parts.now ≤ MOST_STATEMENTS }
    requires one_each { length rents.now ≡ sum_by values.part_grants parts.now }
    requires limit { All (λ rent. rent ≤ MOST_RENT) rents.now }
    ensures plans { result.plans ≡ rented.weighted_costs parts.now (rented.plan_costs config.now parts.now rents.now) }
    ensures plans_most { result.plans ≤ MOST_STATEMENTS * (MOST_WEIGHT * values.MOST_PLAN) }
    ensures earned { (a : ℕ) → a < MOST_CANDIDATES → slice_index_or result.earned a 0 ≡ bounds.part_rents (suc a) parts.now rents.now }
    ensures earned_most { All (λ sum. sum ≤ limits.MOST_RENTS) result.earned }
{
    let mut rows = NO_ROWS;
    let mut earned = [0; MOST_CANDIDATES];
    let mut plans = 0;
    let mut at = 0;
    for part in parts {
        let priced = earned_cost(part, config, rents, at, &mut rows, &mut earned);
        plans += part.weight as u128 * priced.cost;
        at = priced.next;
    }
    Sums { plans, earned }
}

/// The Lagrangian value of a node, where the weighted costs of plans are so much and the rents bring in so much.
#[tactic(auto, unfolding(crate::specs::Bounds::value_of_plans))]
pub(crate) fn value_of_plans(
    programme: &Programme,
    budget: u64,
    fix: &Fix,
    multipliers: &Multipliers,
    plans: u128,
    rents: &Earned,
) -> i128
    requires budget { budget ≤ MOST_PAGES }
    requires multipliers { AreMultipliers programme.now multipliers.now }
    requires plans { plans ≤ MOST_STATEMENTS * (MOST_WEIGHT * values.MOST_PLAN) }
    requires rents { (a : ℕ) → a < MOST_CANDIDATES → slice_index_or rents.now a 0 ≡ bounds.part_rents (suc a) programme.now.parts multipliers.now.lambda }
    requires most { All (λ sum. sum ≤ limits.MOST_RENTS) rents.now }
    ensures { result ≡ bounds.value_of_plans programme.now budget fix.now multipliers.now plans }
{
    let more = 65536 * (plans + programme.kept) + paid_in_all(programme, fix, multipliers);
    let less = earned_in_all(programme, budget, fix, multipliers, rents)
        + multipliers.mu * budget as u128;
    rounded_up(more, less)
}

/// The Lagrangian value of a node, as the programme tells it.
#[tactic(auto, unfolding(crate::specs::Bounds::lagrangian, bip_model::specs::Values::grant_count))]
fn value_of(programme: &Programme, budget: u64, fix: &Fix, multipliers: &Multipliers) -> i128
    requires budget { budget ≤ MOST_PAGES }
    requires multipliers { AreMultipliers programme.now multipliers.now }
    ensures { result ≡ bounds.lagrangian programme.now budget fix.now multipliers.now }
{
    let parts = programme.parts.as_slice();
    let rents = multipliers.lambda.as_slice();
    let sums = both_sums(parts, &available(programme, budget, fix), rents);
    value_of_plans(
        programme,
        budget,
        fix,
        multipliers,
        sums.plans,
        &sums.earned,
    )
}

/// The Lagrangian value of a node for a space budget in pages, under multipliers: no fitting configuration below the node
/// costs less, in thousandths of a page read. It is defined at every node, also where what is in doesn't fit. Of a
/// programme that stands for a setting it is the setting's Lagrangian value. Each of the two numbers whose difference it is,
/// in parts of 65536, is below 10^37. Takes no memory.
pub fn bound(programme: &Programme, budget: u64, fix: &Fix, multipliers: &Multipliers) -> i128
    requires budget { budget ≤ MOST_PAGES }
    requires multipliers { AreMultipliers programme.now multipliers.now }
    ensures exact { result ≡ bounds.lagrangian programme.now budget fix.now multipliers.now }
    ensures summands { bounds.AreSummandsBelow programme.now budget fix.now multipliers.now }
    ensures lagrangian { laws.IsLagrangianInEach programme.now budget fix.now multipliers.now result }
{
    value_of(programme, budget, fix, multipliers)
}
