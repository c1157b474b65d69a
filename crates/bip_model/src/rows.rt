//! The least prices of slots' orders in rows of words, and what templates cost by them.
ghost use Rattle.std.specs.Prelude.{◌≡◌, ◌<◌, ◌≤◌, unwrap_or};
ghost use Rattle.std.specs.Option.{ForSome};
ghost use Rattle.adv_base.specs.declared.limits.TheConstants.{MOST_SLOTS};
ghost use Rattle.plan_model.specs.declared.plan.TheConstants.{MOST_COST};
ghost use Rattle.bip_model.specs.Values as values;
ghost use Rattle.bip_model.specs.Words as words;

use crate::part::Part;
use adv_base::limits::MOST_SLOTS;
use plan_model::Template;

/// The interesting orders of a slot that a byte can tell.
const MOST_ORDERS: usize = 256;
/// In place of a price where none is given: more than any, also with a rent.
pub const NO_PRICE: u64 = u64::MAX;

/// The least price of each order of a slot, in thousandths of a page read.
pub type Row = [u64; MOST_ORDERS];
/// A row for each slot.
pub type Rows = [Row; MOST_SLOTS];

/// Rows to begin with.
pub const NO_ROWS: Rows = [[NO_PRICE; MOST_ORDERS]; MOST_SLOTS];

/// A price as a word.
pub fn word(price: Option<u64>) -> u64
    ensures { result ≡ words.word price }
{
    match price {
        Some(price) => price,
        None => NO_PRICE,
    }
}

/// What a template and so many slots cost, by the rows of their least prices, or None where a slot doesn't give what it needs.
#[tactic(auto, unfolding(crate::specs::Words::row_cost))]
fn template_cost(template: &Template, slots: usize, rows: &Rows) -> Option<u128>
    requires few { slots ≤ MOST_SLOTS }
    requires internal { template.now.internal < MOST_COST }
    ensures exact { result ≡ words.row_cost rows.now template.now slots }
    ensures most { ForSome result (λ cost. cost ≤ values.MOST_PLAN) }
{
    let mut cost = template.internal;
    for s in 0..slots {
        let price = rows[s][template.needs[s] as usize];
        if price == NO_PRICE {
            return None;
        }
        cost += price as u128;
    }
    Some(cost)
}

/// The lesser of two costs, of which either may be missing.
pub fn lesser(a: Option<u128>, b: Option<u128>) -> Option<u128>
    ensures exact { result ≡ values.lesser a b }
    ensures most { ForSome a (λ cost. cost ≤ values.MOST_PLAN) → ForSome b (λ cost. cost ≤ values.MOST_PLAN) → ForSome result (λ cost. cost ≤ values.MOST_PLAN) }
{
    match (a, b) {
        (Some(a), Some(b)) => Some(a.min(b)),
        (None, b) => b,
        (a, None) => a,
    }
}

/// The least cost over a part's templates, by the rows of its slots.
fn least_by_rows(part: &Part, rows: &Rows) -> Option<u128>
    ensures exact { result ≡ words.row_least rows.now part.now }
    ensures most { ForSome result (λ cost. cost ≤ values.MOST_PLAN) }
{
    let slots = part.slots.len();
    let mut best = None;
    for template in part.templates.as_slice() {
        best = lesser(best, template_cost(template, slots, rows));
    }
    best
}

/// The plan cost of a part's statement, in thousandths of a page read, by the rows of its slots; 0 where no template has
/// one. Takes no memory.
pub fn cost_by_rows(part: &Part, rows: &Rows) -> u128
    ensures exact { result ≡ unwrap_or (words.row_least rows.now part.now) 0 }
    ensures most { result ≤ values.MOST_PLAN }
{
    least_by_rows(part, rows).unwrap_or(0)
}
