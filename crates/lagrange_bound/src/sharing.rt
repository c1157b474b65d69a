//! Rent multipliers.
ghost use Rattle.std.specs.Prelude.{◌≡◌, ℕ, suc, ◌+◌, ◌*◌, ◌<◌, ◌≤◌, ◌==◌, ◌++◌, All, count_by, length, map, sum_by, take, slice_index_or};
ghost use Rattle.std.specs.List.{flat_map};
ghost use Rattle.adv_base.specs.declared.limits.TheConstants.{MOST_CANDIDATES, MOST_PAGE_PRICE, MOST_RENT, MOST_STATEMENTS};
ghost use Rattle.bip_model.specs.Values as values;
ghost use Rattle.bip_model.specs.Views.{AreMultipliers};
ghost use Rattle.lagrange_bound.specs.Laws as laws;
ghost use Rattle.lagrange_bound.specs.Rents as rents_spec;
ghost use Rattle.lagrange_bound.specs.inner.Limits as limits;

use crate::candidates::candidate_cost;
use adv_base::limits::{MOST_CANDIDATES, MOST_RENT};
use bip_model::{Grant, Multipliers, Part, Programme, SlotPart, part_grants};

/// How many grants each candidate has.
type Uses = [u64; MOST_CANDIDATES];

/// Counts grants.
fn count_grants(grants: &[Grant], uses: &mut Uses)
    requires fits { (a : ℕ) → a < MOST_CANDIDATES → slice_index_or uses.old a 0 + count_by (λ grant. grant.candidate == suc a) grants.now ≤ limits.MOST_USES }
    ensures { (a : ℕ) → a < MOST_CANDIDATES → slice_index_or uses.new a 0 ≡ slice_index_or uses.old a 0 + count_by (λ grant. grant.candidate == suc a) grants.now }
{
    for i in 0..grants.len() {
        let a = grants[i].candidate as usize - 1;
        uses[a] += 1;
    }
}

/// Counts the grants of slots.
fn count_slots(slots: &[SlotPart], uses: &mut Uses)
    requires { (a : ℕ) → a < MOST_CANDIDATES → slice_index_or uses.old a 0 + sum_by (rents_spec.slot_uses (suc a)) slots.now ≤ limits.MOST_USES }
    ensures { (a : ℕ) → a < MOST_CANDIDATES → slice_index_or uses.new a 0 ≡ slice_index_or uses.old a 0 + sum_by (rents_spec.slot_uses (suc a)) slots.now }
{
    for slot in slots {
        count_grants(slot.grants.as_slice(), uses);
    }
}

/// Counts the grants of parts.
#[tactic(auto, unfolding(crate::specs::Rents::uses))]
fn count_uses(parts: &[Part]) -> Uses
    requires few { length parts.now ≤ MOST_STATEMENTS }
    ensures { (a : ℕ) → a < MOST_CANDIDATES → slice_index_or result a 0 ≡ rents_spec.uses parts.now (suc a) }
{
    let mut uses = [0; MOST_CANDIDATES];
    for part in parts {
        count_slots(part.slots.as_slice(), &mut uses);
    }
    uses
}

/// The share of one use in a statement of some weight of what a candidate costs in parts of 65536, at most 10^18; 0 where
/// the candidate has no use.
fn share(cost: u128, weight: u32, count: u64) -> u64
    ensures exact { result ≡ rents_spec.share cost weight count }
    ensures most { result ≤ MOST_RENT }
{
    let parts = 65536 * (weight as u128 * count as u128);
    if parts == 0 {
        return 0;
    }
    (cost / parts).min(MOST_RENT as u128) as u64
}

/// The rent of a grant in a statement of some weight.
fn grant_rent(programme: &Programme, mu: u128, uses: &Uses, weight: u32, grant: &Grant) -> u64
    requires page { mu ≤ MOST_PAGE_PRICE }
    requires uses { (a : ℕ) → a < MOST_CANDIDATES → slice_index_or uses.now a 0 ≡ rents_spec.uses programme.now.parts (suc a) }
    requires within { grant.now.candidate ≤ length programme.now.sizes }
    ensures { result ≡ rents_spec.grant_rent programme.now mu weight grant.now }
{
    let a = grant.candidate as usize - 1;
    share(candidate_cost(programme, mu, a), weight, uses[a])
}

/// Writes the rents of grants from `at` on.
fn write_grants(
    programme: &Programme,
    mu: u128,
    uses: &Uses,
    weight: u32,
    grants: &[Grant],
    at: usize,
    rents: &mut [u64],
)
    requires page { mu ≤ MOST_PAGE_PRICE }
    requires uses { (a : ℕ) → a < MOST_CANDIDATES → slice_index_or uses.now a 0 ≡ rents_spec.uses programme.now.parts (suc a) }
    requires within { All (λ grant. grant.candidate ≤ length programme.now.sizes) grants.now }
    requires room { at + length grants.now ≤ length rents.old }
    ensures { take (at + length grants.now) rents.new ≡ take at rents.old ++ map (rents_spec.grant_rent programme.now mu weight) grants.now }
{
    for i in 0..grants.len() {
        let rent = grant_rent(programme, mu, uses, weight, &grants[i]);
        rents[at + i] = rent;
    }
}

/// Writes the rents of the grants of slots from `at` on.
fn write_slots(
    programme: &Programme,
    mu: u128,
    uses: &Uses,
    weight: u32,
    slots: &[SlotPart],
    at: usize,
    rents: &mut [u64],
)
    requires page { mu ≤ MOST_PAGE_PRICE }
    requires uses { (a : ℕ) → a < MOST_CANDIDATES → slice_index_or uses.now a 0 ≡ rents_spec.uses programme.now.parts (suc a) }
    requires within { All (λ slot. All (λ grant. grant.candidate ≤ length programme.now.sizes) slot.grants) slots.now }
    requires room { at + sum_by (λ slot. length slot.grants) slots.now ≤ length rents.old }
    ensures { take (at + sum_by (λ slot. length slot.grants) slots.now) rents.new ≡ take at rents.old ++ flat_map (rents_spec.slot_list programme.now mu weight) slots.now }
{
    let mut next = at;
    for slot in slots {
        write_grants(
            programme,
            mu,
            uses,
            weight,
            slot.grants.as_slice(),
            next,
            rents,
        );
        next += slot.grants.len();
    }
}

/// Writes the rents of all grants.
fn write_rents(programme: &Programme, mu: u128, rents: &mut [u64])
    requires page { mu ≤ MOST_PAGE_PRICE }
    requires one_each { length rents.old ≡ sum_by values.part_grants programme.now.parts }
    ensures { rents.new ≡ rents_spec.rents_of programme.now mu }
{
    let parts = programme.parts.as_slice();
    let uses = count_uses(parts);
    let mut at = 0;
    for part in parts {
        write_slots(
            programme,
            mu,
            &uses,
            part.weight,
            part.slots.as_slice(),
            at,
            rents,
        );
        at += part_grants(part);
    }
}

/// Writes the price of a page and the rents of all grants.
#[tactic(auto, unfolding(bip_model::specs::Values::grant_count))]
fn write_multipliers(programme: &Programme, m: u64, into: &mut Multipliers)
    requires one_each { AreMultipliers programme.now into.old }
    ensures page { into.new.mu ≡ m }
    ensures rents { into.new.lambda ≡ rents_spec.rents_of programme.now m }
{
    into.mu = m as u128;
    write_rents(programme, m as u128, into.lambda.items.as_mut_slice());
}

/// Writes the rent multipliers of the price of a page, in parts of 65536: each use of a candidate pays the same share of
/// what the candidate costs at that price, rounded down and at most 10^18, so that no candidate earns more than it costs.
/// Takes no memory.
pub fn rent(programme: &Programme, m: u64, into: &mut Multipliers)
    requires one_each { AreMultipliers programme.now into.old }
    ensures page { into.new.mu ≡ m }
    ensures rents { into.new.lambda ≡ rents_spec.rents_of programme.now m }
    ensures within { AreMultipliers programme.now into.new }
    ensures shared { laws.AreRentsInEach programme.now m into.new }
{
    write_multipliers(programme, m, into);
}
