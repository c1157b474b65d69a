//! Plan costs where each use of a candidate pays a rent, by lists of the prices of all slots.
ghost use Rattle.std.specs.Prelude.{◌≡◌, ℕ, ◌+◌, ◌<◌, ◌≤◌, ◌==◌, if◌then◌else◌, All, length, sum_by, slice_index_or};
ghost use Rattle.std.specs.Option.{ForSome};
ghost use Rattle.adv_base.specs.declared.limits.TheConstants.{MOST_RENT, MOST_SLOTS};
ghost use Rattle.plan_model.specs.declared.plan.TheConstants.{MOST_COST};
ghost use Rattle.bip_model.specs.Values as values;
ghost use Rattle.bip_model.specs.Words as words;
ghost use Rattle.lagrange_bound.specs.ListedPrices as prices_spec;
ghost use Rattle.lagrange_bound.specs.Rented as rented;
ghost use Rattle.lagrange_bound.specs.inner.CostsByLists as listed;

use crate::price_lists::{CheaperPrice, PriceLists};
use adv_base::Config;
use bip_model::{NO_PRICE, Part, lesser};
use plan_model::Template;

/// Lowers the price at a place by that of a grant with its rent, where the grant's candidate may be used.
fn lower_place(
    cheaper: &CheaperPrice,
    owners: &[u8],
    config: &Config,
    rents: &[u64],
    least: &mut [u64],
)
    requires within { prices_spec.IsWithin (length least.old) (length owners.now) cheaper.now }
    requires rent_each { length rents.now ≡ length owners.now }
    requires most { All (λ rent. rent ≤ MOST_RENT) rents.now }
    ensures long { length least.new ≡ length least.old }
    ensures lowered { (p : ℕ) → slice_index_or least.new p 0 ≡ (if cheaper.now.place == p then listed.lowered config.now owners.now rents.now cheaper.now (slice_index_or least.old p 0) else slice_index_or least.old p 0) }
{
    let grant = cheaper.grant as usize;
    if !config.on[owners[grant] as usize] {
        return;
    }
    let place = cheaper.place as usize;
    least[place] = least[place].min(cheaper.price + rents[grant]);
}

/// Writes the least price at each place.
fn write_least(prices: &PriceLists, config: &Config, rents: &[u64], least: &mut [u64])
    requires within { All (prices_spec.IsWithin (length prices.now.bases.items) (length prices.now.owners.items)) prices.now.list.items }
    requires place_each { length least.old ≡ length prices.now.bases.items }
    requires rent_each { length rents.now ≡ length prices.now.owners.items }
    requires most { All (λ rent. rent ≤ MOST_RENT) rents.now }
    ensures long { length least.new ≡ length least.old }
    ensures exact { (p : ℕ) → slice_index_or least.new p 0 ≡ listed.least_at config.now prices.now.owners.items rents.now p (slice_index_or prices.now.bases.items p 0) prices.now.list.items }
{
    let owners = prices.owners.as_slice();
    let list = prices.list.as_slice();
    least.copy_from_slice(prices.bases.as_slice());
    for i in 0..list.len() {
        lower_place(&list[i], owners, config, rents, least);
    }
}

/// What a template and the slots whose orders begin at these places cost, or None where a slot doesn't give what it
/// needs.
#[tactic(auto, using(crate::proofs::ListedCosts::tails_at), unfolding(bip_model::specs::Words::row_cost))]
fn template_cost(template: &Template, starts: &[usize], least: &[u64]) -> Option<u128>
    requires few { length starts.now ≤ MOST_SLOTS }
    requires internal { template.now.internal < MOST_COST }
    requires within { (s : ℕ) → s < length starts.now → slice_index_or starts.now s 0 + values.need template.now s < length least.now }
    ensures exact { result ≡ words.row_cost (listed.tails least.now starts.now) template.now (length starts.now) }
    ensures most { ForSome result (λ cost. cost ≤ values.MOST_PLAN) }
{
    let mut cost = template.internal;
    for s in 0..starts.len() {
        let price = least[starts[s] + template.needs[s] as usize];
        if price == NO_PRICE {
            return None;
        }
        cost += price as u128;
    }
    Some(cost)
}

/// The plan cost of a part's statement, by the least prices of the orders of its slots, which begin at these places.
#[tactic(auto, unfolding(crate::specs::inner::CostsByLists::listed_cost))]
fn listed_cost(part: &Part, starts: &[usize], least: &[u64]) -> u128
    requires start_each { length starts.now ≡ length part.now.slots }
    requires places { listed.HavePlaces part.now.slots starts.now least.now }
    ensures exact { result ≡ listed.listed_cost part.now starts.now least.now }
    ensures most { result ≤ values.MOST_PLAN }
{
    let mut best = None;
    for template in part.templates.as_slice() {
        best = lesser(best, template_cost(template, starts, least));
    }
    best.unwrap_or(0)
}

/// Writes the plan cost of each part.
fn write_listed_costs(parts: &[Part], starts: &[usize], least: &[u64], costs: &mut [u128])
    requires place_each { length costs.old ≡ length parts.now }
    requires start_each { length starts.now ≡ sum_by (λ part. length part.slots) parts.now }
    requires places { listed.HavePlaces (prices_spec.slots_of parts.now) starts.now least.now }
    ensures { costs.new ≡ listed.listed_costs parts.now starts.now least.now }
{
    let mut first = 0;
    for i in 0..parts.len() {
        let part = &parts[i];
        let next = first + part.slots.len();
        costs[i] = listed_cost(part, &starts[first..next], least);
        first = next;
    }
}

/// Writes the plan cost of each part, priced by lists; `least` is filled on the way.
pub(crate) fn price_all(
    parts: &[Part],
    prices: &PriceLists,
    config: &Config,
    rents: &[u64],
    least: &mut [u64],
    costs: &mut [u128],
)
    requires prices { prices_spec.ArePrices (prices_spec.slots_of parts.now) prices.now }
    requires place_each { length least.old ≡ length prices.now.bases.items }
    requires cost_each { length costs.old ≡ length parts.now }
    requires rent_each { length rents.now ≡ sum_by values.part_grants parts.now }
    requires most { All (λ rent. rent ≤ MOST_RENT) rents.now }
    ensures place_each { length least.new ≡ length least.old }
    ensures costs { costs.new ≡ rented.plan_costs config.now parts.now rents.now }
{
    write_least(prices, config, rents, least);
    write_listed_costs(parts, prices.starts.as_slice(), least, costs);
}
