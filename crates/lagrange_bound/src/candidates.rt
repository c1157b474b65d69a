//! Which candidates may be used at a node, what they cost, and what a node pays and earns by them.
ghost use Rattle.std.specs.Prelude.{◌≡◌, ℕ, suc, ◌-◌, ◌*◌, ◌<◌, ◌≤◌, All, length, slice_index_or};
ghost use Rattle.adv_base.specs.declared.limits.TheConstants.{MOST_CANDIDATES, MOST_PAGE_PRICE};
ghost use Rattle.adv_base.specs.Nodes as nodes;
ghost use Rattle.bip_model.specs.Views as views;
ghost use Rattle.lagrange_bound.specs.Bounds as bounds;
ghost use Rattle.lagrange_bound.specs.inner.Limits as limits;

use crate::earnings::Earned;
use adv_base::Config;
use bip_model::{Fix, Multipliers, Programme, State};

/// The candidates that may be used at a node: those that are in or open.
pub(crate) fn available(programme: &Programme, budget: u64, fix: &Fix) -> Config
    ensures { result ≡ nodes.available_in (views.space_in programme.now budget) (views.node_of fix.now) }
{
    programme.space(budget).available(fix)
}

/// What the candidate at a place costs where it is chosen, its upkeep and its pages at the price of a page, in parts of
/// 65536.
#[tactic(auto, unfolding(crate::specs::Bounds::candidate_cost))]
pub(crate) fn candidate_cost(programme: &Programme, mu: u128, a: usize) -> u128
    requires within { a < length programme.now.sizes }
    requires page { mu ≤ MOST_PAGE_PRICE }
    ensures exact { result ≡ bounds.candidate_cost programme.now mu a }
    ensures most { result ≤ limits.MOST_CANDIDATE_COST }
{
    65536 * programme.upkeep.as_slice()[a] + mu * programme.sizes.as_slice()[a] as u128
}

/// The cost of a candidate that is in, and else 0.
fn paid(state: State, cost: u128) -> u128
    ensures { result ≡ bounds.paid state cost }
{
    match state {
        State::In => cost,
        State::Free | State::Out => 0,
    }
}

/// What a node pays for the candidates that are in.
#[tactic(auto, unfolding(crate::specs::Bounds::paid_in_all))]
pub(crate) fn paid_in_all(programme: &Programme, fix: &Fix, multipliers: &Multipliers) -> u128
    requires page { multipliers.now.mu ≤ MOST_PAGE_PRICE }
    ensures exact { result ≡ bounds.paid_in_all programme.now fix.now multipliers.now }
    ensures most { result ≤ MOST_CANDIDATES * limits.MOST_CANDIDATE_COST }
{
    let mut sum = 0;
    for a in 0..programme.sizes.len() {
        sum += paid(fix.state[a], candidate_cost(programme, multipliers.mu, a));
    }
    sum
}

/// What a node earns by a candidate: its rents where it is in, and where it is open what they are beyond its cost.
fn earned(state: State, fits: bool, cost: u128, rents: u128) -> u128
    ensures exact { result ≡ bounds.earned state fits cost rents }
    ensures most { result ≤ rents }
{
    match (state, fits) {
        (State::In, _) => rents,
        (State::Free, true) => rents.saturating_sub(cost),
        _ => 0,
    }
}

/// What a node earns by all candidates, by what the rents of each bring in.
#[tactic(auto, unfolding(crate::specs::Bounds::earned_in_all, crate::specs::Bounds::candidate_rents))]
pub(crate) fn earned_in_all(
    programme: &Programme,
    budget: u64,
    fix: &Fix,
    multipliers: &Multipliers,
    rents: &Earned,
) -> u128
    requires page { multipliers.now.mu ≤ MOST_PAGE_PRICE }
    requires rents { (a : ℕ) → a < MOST_CANDIDATES → slice_index_or rents.now a 0 ≡ bounds.part_rents (suc a) programme.now.parts multipliers.now.lambda }
    requires most { All (λ sum. sum ≤ limits.MOST_RENTS) rents.now }
    ensures exact { result ≡ bounds.earned_in_all programme.now budget fix.now multipliers.now }
    ensures most { result ≤ MOST_CANDIDATES * (65536 * limits.MOST_RENTS) }
{
    let space = programme.space(budget);
    let inside = space.inside(fix);
    let mut sum = 0;
    for a in 0..programme.sizes.len() {
        let fits = space.fits_beside(fix, inside, a as u16 + 1);
        let cost = candidate_cost(programme, multipliers.mu, a);
        sum += earned(fix.state[a], fits, cost, 65536 * rents[a]);
    }
    sum
}
