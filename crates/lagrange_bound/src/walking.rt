//! One walk over the grants of a part: what its plan costs where uses pay rents, and what the rents bring in.
ghost use Rattle.std.specs.Prelude.{◌≡◌, ℕ, suc, ◌+◌, ◌*◌, ◌<◌, ◌≤◌, All, drop, length, sum_by, slice_index_or};
ghost use Rattle.adv_base.specs.declared.limits.TheConstants.{MOST_CANDIDATES, MOST_RENT, MOST_SLOTS};
ghost use Rattle.bip_model.specs.Values as values;
ghost use Rattle.bip_model.specs.Words as words;
ghost use Rattle.lagrange_bound.specs.Bounds as bounds;
ghost use Rattle.lagrange_bound.specs.Rented as rented;
ghost use Rattle.lagrange_bound.specs.inner.Limits as limits;
ghost use Rattle.lagrange_bound.specs.inner.Rows as rows_spec;

use crate::earnings::{Earned, earn, earn_grants};
use crate::plan_costs::{Priced, lower_one, lower_two, write_from};
use adv_base::Config;
use bip_model::{Part, Row, Rows, SlotPart, cost_by_rows, word};

/// The least price of the one order of a slot; the weighted rents of its grants are added.
fn earn_one(
    slot: &SlotPart,
    weight: u32,
    config: &Config,
    rents: &[u64],
    earned: &mut Earned,
) -> u64
    requires orders { 0 < length slot.now.base }
    requires room { length slot.now.grants ≤ length rents.now }
    requires most { All (λ rent. rent ≤ MOST_RENT) rents.now }
    requires fits { (a : ℕ) → a < MOST_CANDIDATES → slice_index_or earned.old a 0 + weight * bounds.grant_rents (suc a) slot.now.grants rents.now ≤ limits.MOST_RENTS }
    ensures least { result ≡ words.word (rented.rented_price config.now slot.now rents.now 0) }
    ensures earned { (a : ℕ) → a < MOST_CANDIDATES → slice_index_or earned.new a 0 ≡ slice_index_or earned.old a 0 + weight * bounds.grant_rents (suc a) slot.now.grants rents.now }
{
    let grants = slot.grants.as_slice();
    let mut least = word(slot.base.as_slice()[0]);
    for i in 0..grants.len() {
        let grant = &grants[i];
        let rent = rents[i];
        earn(grant, rent, weight, earned);
        least = lower_one(grant, 0, rent, config, least);
    }
    least
}

/// The same of the first two orders.
fn earn_two(
    slot: &SlotPart,
    weight: u32,
    config: &Config,
    rents: &[u64],
    earned: &mut Earned,
) -> (u64, u64)
    requires orders { 1 < length slot.now.base }
    requires room { length slot.now.grants ≤ length rents.now }
    requires most { All (λ rent. rent ≤ MOST_RENT) rents.now }
    requires fits { (a : ℕ) → a < MOST_CANDIDATES → slice_index_or earned.old a 0 + weight * bounds.grant_rents (suc a) slot.now.grants rents.now ≤ limits.MOST_RENTS }
    ensures first { result.0 ≡ words.word (rented.rented_price config.now slot.now rents.now 0) }
    ensures second { result.1 ≡ words.word (rented.rented_price config.now slot.now rents.now 1) }
    ensures earned { (a : ℕ) → a < MOST_CANDIDATES → slice_index_or earned.new a 0 ≡ slice_index_or earned.old a 0 + weight * bounds.grant_rents (suc a) slot.now.grants rents.now }
{
    let grants = slot.grants.as_slice();
    let base = slot.base.as_slice();
    let mut least = (word(base[0]), word(base[1]));
    for i in 0..grants.len() {
        let grant = &grants[i];
        let rent = rents[i];
        earn(grant, rent, weight, earned);
        least = lower_two(grant, 0, rent, config, least);
    }
    least
}

/// The same of the first three orders.
fn earn_three(
    slot: &SlotPart,
    weight: u32,
    config: &Config,
    rents: &[u64],
    earned: &mut Earned,
) -> ((u64, u64), u64)
    requires orders { 2 < length slot.now.base }
    requires room { length slot.now.grants ≤ length rents.now }
    requires most { All (λ rent. rent ≤ MOST_RENT) rents.now }
    requires fits { (a : ℕ) → a < MOST_CANDIDATES → slice_index_or earned.old a 0 + weight * bounds.grant_rents (suc a) slot.now.grants rents.now ≤ limits.MOST_RENTS }
    ensures first { result.0.0 ≡ words.word (rented.rented_price config.now slot.now rents.now 0) }
    ensures second { result.0.1 ≡ words.word (rented.rented_price config.now slot.now rents.now 1) }
    ensures third { result.1 ≡ words.word (rented.rented_price config.now slot.now rents.now 2) }
    ensures earned { (a : ℕ) → a < MOST_CANDIDATES → slice_index_or earned.new a 0 ≡ slice_index_or earned.old a 0 + weight * bounds.grant_rents (suc a) slot.now.grants rents.now }
{
    let grants = slot.grants.as_slice();
    let base = slot.base.as_slice();
    let mut least = (word(base[0]), word(base[1]));
    let mut third = word(base[2]);
    for i in 0..grants.len() {
        let grant = &grants[i];
        let rent = rents[i];
        earn(grant, rent, weight, earned);
        least = lower_two(grant, 0, rent, config, least);
        third = lower_one(grant, 2, rent, config, third);
    }
    (least, third)
}

/// Puts the least price of each order of a slot into a row, and adds the weighted rents of its grants.
fn earn_row(
    slot: &SlotPart,
    weight: u32,
    config: &Config,
    rents: &[u64],
    row: &mut Row,
    earned: &mut Earned,
)
    requires room { length slot.now.grants ≤ length rents.now }
    requires most { All (λ rent. rent ≤ MOST_RENT) rents.now }
    requires fits { (a : ℕ) → a < MOST_CANDIDATES → slice_index_or earned.old a 0 + weight * bounds.grant_rents (suc a) slot.now.grants rents.now ≤ limits.MOST_RENTS }
    ensures row { rows_spec.IsRow config.now slot.now rents.now row.new }
    ensures earned { (a : ℕ) → a < MOST_CANDIDATES → slice_index_or earned.new a 0 ≡ slice_index_or earned.old a 0 + weight * bounds.grant_rents (suc a) slot.now.grants rents.now }
{
    match slot.base.len() {
        0 => earn_grants(slot.grants.as_slice(), rents, weight, earned),
        1 => row[0] = earn_one(slot, weight, config, rents, earned),
        3 => {
            let (least, third) = earn_three(slot, weight, config, rents, earned);
            row[0] = least.0;
            row[1] = least.1;
            row[2] = third;
        }
        _ => {
            let least = earn_two(slot, weight, config, rents, earned);
            row[0] = least.0;
            row[1] = least.1;
            write_from(slot, 1, config, rents, row);
        }
    }
}

/// Puts the least prices of the orders of each slot into rows and adds the weighted rents of the slots' grants, which
/// begin at `at`, and answers where the next ones begin.
fn earn_rows(
    slots: &[SlotPart],
    weight: u32,
    config: &Config,
    rents: &[u64],
    at: usize,
    rows: &mut Rows,
    earned: &mut Earned,
) -> usize
    requires few { length slots.now ≤ MOST_SLOTS }
    requires room { at + sum_by (λ slot. length slot.grants) slots.now ≤ length rents.now }
    requires most { All (λ rent. rent ≤ MOST_RENT) rents.now }
    requires fits { (a : ℕ) → a < MOST_CANDIDATES → slice_index_or earned.old a 0 + weight * bounds.slot_rents (suc a) slots.now (drop at rents.now) ≤ limits.MOST_RENTS }
    ensures rows { rows_spec.AreRows config.now slots.now (drop at rents.now) (length slots.now) rows.new }
    ensures next { result ≡ at + sum_by (λ slot. length slot.grants) slots.now }
    ensures earned { (a : ℕ) → a < MOST_CANDIDATES → slice_index_or earned.new a 0 ≡ slice_index_or earned.old a 0 + weight * bounds.slot_rents (suc a) slots.now (drop at rents.now) }
{
    let mut next = at;
    for s in 0..slots.len() {
        let slot = &slots[s];
        let end = next + slot.grants.len();
        earn_row(
            slot,
            weight,
            config,
            &rents[next..end],
            &mut rows[s],
            earned,
        );
        next = end;
    }
    next
}

/// The plan cost of a part's statement, where the rents of its grants begin at `at`; `rows` is filled on the way, and
/// the weighted rents are added.
#[tactic(auto, unfolding(crate::specs::Rented::rented_cost))]
pub(crate) fn earned_cost(
    part: &Part,
    config: &Config,
    rents: &[u64],
    at: usize,
    rows: &mut Rows,
    earned: &mut Earned,
) -> Priced
    requires room { at + values.part_grants part.now ≤ length rents.now }
    requires most { All (λ rent. rent ≤ MOST_RENT) rents.now }
    requires fits { (a : ℕ) → a < MOST_CANDIDATES → slice_index_or earned.old a 0 + part.now.weight * bounds.slot_rents (suc a) part.now.slots (drop at rents.now) ≤ limits.MOST_RENTS }
    ensures exact { result.cost ≡ rented.rented_cost config.now part.now (drop at rents.now) }
    ensures most { result.cost ≤ values.MOST_PLAN }
    ensures next { result.next ≡ at + values.part_grants part.now }
    ensures earned { (a : ℕ) → a < MOST_CANDIDATES → slice_index_or earned.new a 0 ≡ slice_index_or earned.old a 0 + part.now.weight * bounds.slot_rents (suc a) part.now.slots (drop at rents.now) }
{
    let slots = part.slots.as_slice();
    let next = earn_rows(slots, part.weight, config, rents, at, rows, earned);
    Priced {
        cost: cost_by_rows(part, rows),
        next,
    }
}
