//! What a programme says a configuration costs.
ghost use Rattle.std.specs.Prelude.{◌≡◌, if◌then◌else◌, ℕ, ◌*◌, ◌<◌, ◌≤◌, All, length, min, sum, sum_by, slice_index_or};
ghost use Rattle.adv_base.specs.Configs as configs;
ghost use Rattle.adv_base.specs.declared.limits.TheConstants.{MOST_CANDIDATES, MOST_SLOTS, MOST_STATEMENTS, MOST_UPKEEP, MOST_WEIGHT};
ghost use Rattle.bip_model.specs.Laws as laws;
ghost use Rattle.bip_model.specs.Values as values;
ghost use Rattle.bip_model.specs.Words as words;

use crate::grant::Grant;
use crate::part::Part;
use crate::programme::Programme;
use crate::rows::{NO_ROWS, Row, Rows, cost_by_rows, word};
use crate::slot_part::SlotPart;
use adv_base::Config;

/// Puts a slot's existing prices into the front of a row.
fn write_base(base: &[Option<u64>], row: &mut Row)
    requires fits { length base.now ≤ 256 }
    ensures { (o : ℕ) → o < length base.now → slice_index_or row.new o 0 ≡ words.word (values.price_of base.now o) }
{
    for o in 0..base.len() {
        row[o] = word(base[o]);
    }
}

/// Lowers the front of a row to the prices of a grant, where these are less.
fn lower_row(prices: &[Option<u64>], row: &mut Row)
    requires fits { length prices.now ≤ 256 }
    ensures { (o : ℕ) → o < length prices.now → slice_index_or row.new o 0 ≡ min (slice_index_or row.old o 0) (words.word (values.price_of prices.now o)) }
{
    for o in 0..prices.len() {
        row[o] = row[o].min(word(prices[o]));
    }
}

/// Lowers the front of a row to the prices of a grant whose candidate is chosen.
fn grant_row(grant: &Grant, config: &Config, row: &mut Row)
    requires fits { length grant.now.prices ≤ 256 }
    ensures { (o : ℕ) → o < length grant.now.prices → slice_index_or row.new o 0 ≡ min (slice_index_or row.old o 0) (words.word (values.granted config.now o grant.now)) }
{
    if config.has(grant.candidate) {
        lower_row(grant.prices.as_slice(), row);
    }
}

/// Puts the least price of each order of a slot into a row.
fn write_row(slot: &SlotPart, config: &Config, row: &mut Row)
    ensures { words.IsRow config.now slot.now row.new }
{
    write_base(slot.base.as_slice(), row);
    for grant in slot.grants.as_slice() {
        grant_row(grant, config, row);
    }
}

/// Puts the least prices of the orders of each slot into rows.
fn write_rows(slots: &[SlotPart], config: &Config, rows: &mut Rows)
    requires few { length slots.now ≤ MOST_SLOTS }
    ensures { words.AreRows config.now slots.now (length slots.now) rows.new }
{
    for s in 0..slots.len() {
        write_row(&slots[s], config, &mut rows[s]);
    }
}

/// The plan cost of a part's statement; `rows` is filled on the way.
#[tactic(auto, unfolding(crate::specs::Values::part_cost))]
fn plan_cost(part: &Part, config: &Config, rows: &mut Rows) -> u128
    ensures exact { result ≡ values.part_cost part.now config.now }
    ensures most { result ≤ values.MOST_PLAN }
{
    write_rows(part.slots.as_slice(), config, rows);
    cost_by_rows(part, rows)
}

/// What the plan of a part's statement costs under a configuration, in thousandths of a page read: the least over the
/// templates (INUM's) of the internal cost and, for each slot, the least price of the needed order, of what exists and of
/// the chosen grants. It has no weight and no upkeep. Takes no memory.
pub fn part_cost(part: &Part, config: &Config) -> u128
    ensures least { laws.IsBlockCostInEach part.now config.now result }
    ensures exact { result ≡ values.part_cost part.now config.now }
    ensures most { result ≤ values.MOST_PLAN }
{
    let mut rows = NO_ROWS;
    plan_cost(part, config, &mut rows)
}

/// The upkeep of a candidate that is chosen, and else 0.
fn if_chosen(upkeep: u128, chosen: bool) -> u128
    ensures { result ≡ (if chosen then upkeep else 0) }
{
    if chosen { upkeep } else { 0 }
}

/// The upkeep of the chosen candidates.
fn chosen_upkeep(upkeep: &[u128], config: &Config) -> u128
    requires few { length upkeep.now ≤ MOST_CANDIDATES }
    requires limits { All (λ cost. cost ≤ MOST_STATEMENTS * (MOST_WEIGHT * MOST_UPKEEP)) upkeep.now }
    ensures exact { result ≡ sum (configs.chosen config.now.on upkeep.now) }
    ensures most { result ≤ MOST_CANDIDATES * (MOST_STATEMENTS * (MOST_WEIGHT * MOST_UPKEEP)) }
{
    let mut sum = 0;
    for a in 0..upkeep.len() {
        sum += if_chosen(upkeep[a], config.on[a]);
    }
    sum
}

/// The sum of weight times plan cost.
fn weighted_plans(parts: &[Part], config: &Config) -> u128
    requires few { length parts.now ≤ MOST_STATEMENTS }
    ensures exact { result ≡ sum_by (λ part. part.weight * values.part_cost part config.now) parts.now }
    ensures most { result ≤ MOST_STATEMENTS * (MOST_WEIGHT * values.MOST_PLAN) }
{
    let mut rows = NO_ROWS;
    let mut sum = 0;
    for part in parts {
        sum += part.weight as u128 * plan_cost(part, config, &mut rows);
    }
    sum
}

/// What a programme says a configuration costs, in thousandths of a page read: the upkeep of what exists and of the chosen
/// candidates, and each part's weight times its plan cost. Of a programme that stands for a setting it is the total of the
/// workload. Takes no memory.
#[tactic(auto, unfolding(crate::specs::Values::value))]
pub fn value(programme: &Programme, config: &Config) -> u128
    ensures total { laws.IsTotalInEach programme.now config.now result }
    ensures exact { result ≡ values.value programme.now config.now }
{
    programme.kept
        + chosen_upkeep(programme.upkeep.as_slice(), config)
        + weighted_plans(programme.parts.as_slice(), config)
}
