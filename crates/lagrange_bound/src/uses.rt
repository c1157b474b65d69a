//! The grants of each candidate over all slots of a programme, and what their rents bring in.
ghost use Rattle.std.specs.Prelude.{◌≡◌, ℕ, ◌+◌, ◌*◌, ◌^◌, ◌<◌, ◌≤◌, ◌==◌, [], if◌then◌else◌, All, IfOk, OnOk, drop, length, sum_by, slice_index_or, take};
ghost use Rattle.adv_base.specs.declared.limits.TheConstants.{MOST_CANDIDATES};
ghost use Rattle.bip_model.specs.Values as values;
ghost use Rattle.lagrange_bound.specs.CandidateUses as candidate_uses;
ghost use Rattle.lagrange_bound.specs.ListedPrices as prices_spec;
ghost use Rattle.lagrange_bound.specs.inner.Limits as limits;
ghost use Rattle.lagrange_bound.specs.inner.CostsByLists as listed;

use crate::earnings::Earned;
use adv_base::limits::MOST_CANDIDATES;
use adv_base::{List, NoMemory};
use bip_model::Part;
use std::alloc::Global;

/// A grant, by its number over all slots of a programme, and the weight of its statement.
#[derive(Clone, Copy, Debug)]
pub struct WeightedGrant {
    pub number: u32,
    pub weight: u32,
}

/// Puts a grant at the end of the list of the candidate that owns it.
fn push_grant(
    owner: u8,
    grant: WeightedGrant,
    all: &mut Vec<List<WeightedGrant>>,
) -> Result<(), NoMemory>
    requires long { length all.now.items ≡ MOST_CANDIDATES }
    ensures long { length all.new.items ≡ MOST_CANDIDATES }
    ensures within { OnOk result ((a n : ℕ) → grant.number < n → All (λ grant. grant.number < n) (slice_index_or all.old.items a []) → All (λ grant. grant.number < n) (slice_index_or all.new.items a [])) }
    ensures bring { OnOk result ((a : ℕ) (rents : List ℕ) → candidate_uses.weighted_rents (slice_index_or all.new.items a []) rents ≡ candidate_uses.weighted_rents (slice_index_or all.old.items a []) rents + grant.weight * (if owner == a then slice_index_or rents grant.number 0 else 0)) }
{
    all[owner as usize].items.push(grant)?;
    Ok(())
}

/// Puts each of the grants of a part at the end of the list of its candidate.
fn push_part(
    owners: &[u8],
    at: usize,
    weight: u32,
    all: &mut Vec<List<WeightedGrant>>,
) -> Result<(), NoMemory>
    requires numbers { at + length owners.now ≤ 2 ^ 32 }
    requires long { length all.now.items ≡ MOST_CANDIDATES }
    ensures long { length all.new.items ≡ MOST_CANDIDATES }
    ensures within { OnOk result ((a n : ℕ) → at + length owners.now ≤ n → All (λ grant. grant.number < n) (slice_index_or all.old.items a []) → All (λ grant. grant.number < n) (slice_index_or all.new.items a [])) }
    ensures bring { OnOk result ((a : ℕ) (rents : List ℕ) → at + length owners.now ≤ length rents → candidate_uses.weighted_rents (slice_index_or all.new.items a []) rents ≡ candidate_uses.weighted_rents (slice_index_or all.old.items a []) rents + weight * listed.owned_rents a owners.now (drop at rents)) }
{
    for i in 0..owners.len() {
        let grant = WeightedGrant {
            number: (at + i) as u32,
            weight,
        };
        push_grant(owners[i], grant, all)?;
    }
    Ok(())
}

/// Where the grants of a part begin, and where they end: where those of the next begin, or where all end.
fn span(parts: &[Part], starts: &[usize], i: usize, all: usize) -> (usize, usize)
    requires within { i < length parts.now }
    requires start_each { length starts.now ≡ length parts.now }
    requires starts { (k : ℕ) → k < length parts.now → slice_index_or starts.now k 0 ≡ sum_by values.part_grants (take k parts.now) }
    requires all { all ≡ sum_by values.part_grants parts.now }
    ensures start { result.0 ≡ sum_by values.part_grants (take i parts.now) }
    ensures end { result.1 ≡ sum_by values.part_grants (take (i + 1) parts.now) }
    ensures order { result.0 ≤ result.1 }
    ensures most { result.1 ≤ all }
{
    if i + 1 < parts.len() {
        return (starts[i], starts[i + 1]);
    }
    (starts[i], all)
}

/// An empty list for each candidate.
fn empty_lists(alloc: Global) -> Result<Vec<List<WeightedGrant>>, NoMemory>
    ensures long { IfOk result (λ all. length all.items ≡ MOST_CANDIDATES) }
    ensures empty { IfOk result (λ all. (a : ℕ) → slice_index_or all.items a [] ≡ []) }
{
    let mut all = Vec::new(alloc);
    for _ in 0..MOST_CANDIDATES {
        all.push(List::new(alloc))?;
    }
    Ok(all)
}

/// What the rents of grants bring in by weight.
fn weighted_rents(grants: &[WeightedGrant], rents: &[u64]) -> u128
    requires within { All (λ grant. grant.number < length rents.now) grants.now }
    requires fits { candidate_uses.weighted_rents grants.now rents.now ≤ limits.MOST_RENTS }
    ensures { result ≡ candidate_uses.weighted_rents grants.now rents.now }
{
    let mut sum = 0;
    for i in 0..grants.len() {
        sum += grants[i].weight as u128 * rents[grants[i].number as usize] as u128;
    }
    sum
}

/// The grants of each candidate.
pub(crate) fn all_uses(
    alloc: Global,
    parts: &[Part],
    starts: &[usize],
    owners: &[u8],
) -> Result<Vec<List<WeightedGrant>>, NoMemory>
    requires start_each { length starts.now ≡ length parts.now }
    requires starts { (k : ℕ) → k < length parts.now → slice_index_or starts.now k 0 ≡ sum_by values.part_grants (take k parts.now) }
    requires owner_each { length owners.now ≡ sum_by values.part_grants parts.now }
    requires owners { listed.AreOwners (prices_spec.slots_of parts.now) owners.now }
    requires numbers { length owners.now ≤ 2 ^ 32 }
    ensures { IfOk result (λ all. candidate_uses.AreAllUses parts.now all.items) }
{
    let mut all = empty_lists(alloc)?;
    for i in 0..parts.len() {
        let (at, end) = span(parts, starts, i, owners.len());
        push_part(&owners[at..end], at, parts[i].weight, &mut all)?;
    }
    Ok(all)
}

/// What the rents of each candidate bring in.
pub(crate) fn used_rents(all: &[List<WeightedGrant>], rents: &[u64]) -> Earned
    requires long { length all.now ≡ MOST_CANDIDATES }
    requires within { (a : ℕ) → a < MOST_CANDIDATES → All (λ grant. grant.number < length rents.now) (slice_index_or all.now a []) }
    requires fits { (a : ℕ) → a < MOST_CANDIDATES → candidate_uses.weighted_rents (slice_index_or all.now a []) rents.now ≤ limits.MOST_RENTS }
    ensures exact { (a : ℕ) → a < MOST_CANDIDATES → slice_index_or result a 0 ≡ candidate_uses.weighted_rents (slice_index_or all.now a []) rents.now }
    ensures most { All (λ sum. sum ≤ limits.MOST_RENTS) result }
{
    let mut earned = [0; MOST_CANDIDATES];
    for a in 0..MOST_CANDIDATES {
        earned[a] = weighted_rents(all[a].as_slice(), rents);
    }
    earned
}
