//! What plans cost where each use of a candidate pays a rent.
ghost use Rattle.std.specs.Prelude.{◌≡◌, ◌+◌, ◌*◌, ◌<◌, ◌≤◌, All, drop, length, min, sum_by};
ghost use Rattle.std.specs.Option.{ForSome, option_map};
ghost use Rattle.adv_base.specs.Configs.{has_candidate};
ghost use Rattle.adv_base.specs.declared.limits.TheConstants.{MOST_PRICE, MOST_RENT, MOST_SLOTS};
ghost use Rattle.bip_model.specs.Values as values;
ghost use Rattle.bip_model.specs.Words as words;
ghost use Rattle.lagrange_bound.specs.Rented as rented;
ghost use Rattle.lagrange_bound.specs.inner.Rows as rows_spec;

use adv_base::Config;
use bip_model::{Grant, Part, Row, Rows, SlotPart, cost_by_rows, word};

/// Whether the candidate of a grant may be used. Its place is told by a byte.
fn is_open(grant: &Grant, config: &Config) -> bool
    ensures { result ≡ has_candidate config.now grant.now.candidate }
{
    config.on[(grant.candidate - 1) as u8 as usize]
}

/// The lesser of two prices, of which the second has a rent on top, as words.
fn lowered(least: u64, price: Option<u64>, rent: u64) -> u64
    requires price { ForSome price (λ p. p ≤ MOST_PRICE) }
    requires rent { rent ≤ MOST_RENT }
    ensures { result ≡ min least (words.word (option_map (λ p. p + rent) price)) }
{
    match price {
        Some(price) => least.min(price + rent),
        None => least,
    }
}

/// The lesser of a price and what a grant asks for an order.
pub(crate) fn lower_one(grant: &Grant, o: usize, rent: u64, config: &Config, least: u64) -> u64
    requires order { o < length grant.now.prices }
    requires rent { rent ≤ MOST_RENT }
    ensures { result ≡ min least (words.word (rented.asked config.now o grant.now rent)) }
{
    if !is_open(grant, config) {
        return least;
    }
    lowered(least, grant.prices.as_slice()[o], rent)
}

/// The same for an order and the next.
pub(crate) fn lower_two(
    grant: &Grant,
    o: usize,
    rent: u64,
    config: &Config,
    least: (u64, u64),
) -> (u64, u64)
    requires order { o + 1 < length grant.now.prices }
    requires rent { rent ≤ MOST_RENT }
    ensures first { result.0 ≡ min least.0 (words.word (rented.asked config.now o grant.now rent)) }
    ensures second { result.1 ≡ min least.1 (words.word (rented.asked config.now (o + 1) grant.now rent)) }
{
    if !is_open(grant, config) {
        return least;
    }
    let prices = &grant.prices.as_slice()[o..o + 2];
    (
        lowered(least.0, prices[0], rent),
        lowered(least.1, prices[1], rent),
    )
}

/// The least price of an order at a slot.
fn least_of_one(slot: &SlotPart, o: usize, config: &Config, rents: &[u64]) -> u64
    requires order { o < length slot.now.base }
    requires room { length slot.now.grants ≤ length rents.now }
    requires most { All (λ rent. rent ≤ MOST_RENT) rents.now }
    ensures { result ≡ words.word (rented.rented_price config.now slot.now rents.now o) }
{
    let grants = slot.grants.as_slice();
    let mut least = word(slot.base.as_slice()[o]);
    for i in 0..grants.len() {
        least = lower_one(&grants[i], o, rents[i], config, least);
    }
    least
}

/// The same of an order and the next.
fn least_of_two(slot: &SlotPart, o: usize, config: &Config, rents: &[u64]) -> (u64, u64)
    requires order { o + 1 < length slot.now.base }
    requires room { length slot.now.grants ≤ length rents.now }
    requires most { All (λ rent. rent ≤ MOST_RENT) rents.now }
    ensures first { result.0 ≡ words.word (rented.rented_price config.now slot.now rents.now o) }
    ensures second { result.1 ≡ words.word (rented.rented_price config.now slot.now rents.now (o + 1)) }
{
    let grants = slot.grants.as_slice();
    let base = slot.base.as_slice();
    let mut least = (word(base[o]), word(base[o + 1]));
    for i in 0..grants.len() {
        least = lower_two(&grants[i], o, rents[i], config, least);
    }
    least
}

/// Puts the least price of each order of a slot into a row, from a pair of orders on, two at a time, since most grants
/// have more than one.
pub(crate) fn write_from(
    slot: &SlotPart,
    from: usize,
    config: &Config,
    rents: &[u64],
    row: &mut Row,
)
    requires before { rows_spec.IsRowBelow config.now slot.now rents.now (2 * from) row.old }
    requires room { length slot.now.grants ≤ length rents.now }
    requires most { All (λ rent. rent ≤ MOST_RENT) rents.now }
    ensures { rows_spec.IsRow config.now slot.now rents.now row.new }
{
    let orders = slot.base.len();
    for pair in from..orders / 2 {
        let o = 2 * pair;
        let (first, second) = least_of_two(slot, o, config, rents);
        row[o] = first;
        row[o + 1] = second;
    }
    if orders % 2 == 1 {
        row[orders - 1] = least_of_one(slot, orders - 1, config, rents);
    }
}

/// Puts the least prices of the orders of each slot into rows, where the rents of the slots' grants begin at `at`, and
/// answers where the next ones begin.
fn write_rows(
    slots: &[SlotPart],
    config: &Config,
    rents: &[u64],
    at: usize,
    rows: &mut Rows,
) -> usize
    requires few { length slots.now ≤ MOST_SLOTS }
    requires room { at + sum_by (λ slot. length slot.grants) slots.now ≤ length rents.now }
    requires most { All (λ rent. rent ≤ MOST_RENT) rents.now }
    ensures rows { rows_spec.AreRows config.now slots.now (drop at rents.now) (length slots.now) rows.new }
    ensures next { result ≡ at + sum_by (λ slot. length slot.grants) slots.now }
{
    let mut next = at;
    for s in 0..slots.len() {
        let slot = &slots[s];
        let end = next + slot.grants.len();
        write_from(slot, 0, config, &rents[next..end], &mut rows[s]);
        next = end;
    }
    next
}

/// The plan cost of a part's statement, and where the rents of the next part's grants begin.
#[derive(Clone, Copy)]
pub(crate) struct Priced {
    pub cost: u128,
    pub next: usize,
}

/// The plan cost of a part's statement, where the rents of its grants begin at `at`; `rows` is filled on the way.
#[tactic(auto, unfolding(crate::specs::Rented::rented_cost))]
pub(crate) fn rented_cost(
    part: &Part,
    config: &Config,
    rents: &[u64],
    at: usize,
    rows: &mut Rows,
) -> Priced
    requires room { at + values.part_grants part.now ≤ length rents.now }
    requires most { All (λ rent. rent ≤ MOST_RENT) rents.now }
    ensures exact { result.cost ≡ rented.rented_cost config.now part.now (drop at rents.now) }
    ensures most { result.cost ≤ values.MOST_PLAN }
    ensures next { result.next ≡ at + values.part_grants part.now }
{
    let next = write_rows(part.slots.as_slice(), config, rents, at, rows);
    Priced {
        cost: cost_by_rows(part, rows),
        next,
    }
}
