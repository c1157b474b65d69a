//! What the rents of each candidate bring in.
ghost use Rattle.std.specs.Prelude.{◌≡◌, ℕ, suc, ◌+◌, ◌-◌, ◌*◌, ◌<◌, ◌≤◌, All, drop, length, sum_by, slice_index_or, slice_set};
ghost use Rattle.adv_base.specs.declared.limits.TheConstants.{MOST_CANDIDATES, MOST_RENT, MOST_STATEMENTS};
ghost use Rattle.bip_model.specs.Values as values;
ghost use Rattle.lagrange_bound.specs.Bounds as bounds;
ghost use Rattle.lagrange_bound.specs.inner.Limits as limits;

use adv_base::limits::MOST_CANDIDATES;
use bip_model::{Grant, Part, SlotPart};

/// What the rents of each candidate bring in, by weight.
pub(crate) type Earned = [u128; MOST_CANDIDATES];

/// Adds the weighted rent of a grant to what its candidate brings in. The place of a candidate is told by a byte.
pub(crate) fn earn(grant: &Grant, rent: u64, weight: u32, earned: &mut Earned)
    requires { slice_index_or earned.old (grant.now.candidate - 1) 0 ≤ limits.MOST_RENTS }
    ensures { earned.new ≡ slice_set earned.old (grant.now.candidate - 1) (slice_index_or earned.old (grant.now.candidate - 1) 0 + weight * rent) }
{
    let a = (grant.candidate - 1) as u8 as usize;
    earned[a] += weight as u128 * rent as u128;
}

/// Adds the weighted rents of grants.
pub(crate) fn earn_grants(grants: &[Grant], rents: &[u64], weight: u32, earned: &mut Earned)
    requires room { length grants.now ≤ length rents.now }
    requires fits { (a : ℕ) → a < MOST_CANDIDATES → slice_index_or earned.old a 0 + weight * bounds.grant_rents (suc a) grants.now rents.now ≤ limits.MOST_RENTS }
    ensures { (a : ℕ) → a < MOST_CANDIDATES → slice_index_or earned.new a 0 ≡ slice_index_or earned.old a 0 + weight * bounds.grant_rents (suc a) grants.now rents.now }
{
    for i in 0..grants.len() {
        earn(&grants[i], rents[i], weight, earned);
    }
}

/// Adds the weighted rents of the grants of slots, which begin at `at`, and answers where the next ones begin.
fn earn_slots(
    slots: &[SlotPart],
    rents: &[u64],
    at: usize,
    weight: u32,
    earned: &mut Earned,
) -> usize
    requires room { at + sum_by (λ slot. length slot.grants) slots.now ≤ length rents.now }
    requires fits { (a : ℕ) → a < MOST_CANDIDATES → slice_index_or earned.old a 0 + weight * bounds.slot_rents (suc a) slots.now (drop at rents.now) ≤ limits.MOST_RENTS }
    ensures next { result ≡ at + sum_by (λ slot. length slot.grants) slots.now }
    ensures earned { (a : ℕ) → a < MOST_CANDIDATES → slice_index_or earned.new a 0 ≡ slice_index_or earned.old a 0 + weight * bounds.slot_rents (suc a) slots.now (drop at rents.now) }
{
    let mut next = at;
    for slot in slots {
        let end = next + slot.grants.len();
        earn_grants(slot.grants.as_slice(), &rents[next..end], weight, earned);
        next = end;
    }
    next
}

/// What the rents of parts bring in for each candidate.
pub(crate) fn earned_rents(parts: &[Part], rents: &[u64]) -> Earned
    requires few { length parts.now ≤ MOST_STATEMENTS }
    requires one_each { length rents.now ≡ sum_by values.part_grants parts.now }
    requires limit { All (λ rent. rent ≤ MOST_RENT) rents.now }
    ensures exact { (a : ℕ) → a < MOST_CANDIDATES → slice_index_or result a 0 ≡ bounds.part_rents (suc a) parts.now rents.now }
    ensures most { All (λ sum. sum ≤ limits.MOST_RENTS) result }
{
    let mut earned = [0; MOST_CANDIDATES];
    let mut at = 0;
    for part in parts {
        at = earn_slots(part.slots.as_slice(), rents, at, part.weight, &mut earned);
    }
    earned
}
