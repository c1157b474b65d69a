//! What a least plan costs, from the cache.
ghost use Rattle.std.specs.Prelude.{◌≡◌, ◌<◌, ◌≤◌, length};
ghost use Rattle.plan_model.specs.declared.task.Task.{Task};
ghost use Rattle.plan_model.specs.Combinations.{CachedBy, IsIn};
ghost use Rattle.plan_model.specs.Least.{Least};
ghost use Rattle.inum_cache.specs.Caches.{IsCacheOf, HavePlain};
ghost use Rattle.inum_cache.specs.Numbering.{order_in};
ghost use Rattle.inum_cache.specs.inner.Pricing as pricing;

use crate::cache::Cache;
use adv_base::Item;
use plan_model::{Offers, Template};
use planner::has_front;

/// Stands for the price of an order that isn't offered; it is above every cost.
pub(crate) const UNOFFERED: u128 = 1_000_000_000_000_000_000_000_000_000_000;

/// The lower of a price and that of an offer which begins with the order.
#[inline(always)]
fn lowered<O: Offers>(offers: &O, slot: u8, order: &[Item], offer: u32, best: u128) -> u128
    requires within { offer < length (O.table offers.now slot) }
    requires most { best ≤ UNOFFERED }
    ensures { result ≡ pricing.lower best (pricing.offer_price (O.table offers.now) slot order.now offer) }
{
    let price = offers.price(slot, offer) as u128;
    if price < best && has_front(offers.order(slot, offer), order) {
        price
    } else {
        best
    }
}

/// The least price at which a slot gives the order.
#[inline(always)]
fn best_price<O: Offers>(offers: &O, slot: u8, order: &[Item]) -> u128
    ensures exact { result ≡ pricing.best_price (O.table offers.now) slot order.now }
    ensures most { result ≤ UNOFFERED }
{
    let mut best = UNOFFERED;
    for offer in 0..offers.count(slot) {
        best = lowered(offers, slot, order, offer, best);
    }
    best
}

/// For each slot its least price for any order, and a place with the least price of the order there.
#[derive(Clone, Copy)]
pub(crate) struct KnownPrices {
    pub least: [u128; 8],
    pub places: [u8; 8],
    pub prices: [u128; 8],
}

impl Cache {
    /// The least price of each slot, for any order.
    #[inline(always)]
    fn known_prices<O: Offers>(&self, offers: &O) -> KnownPrices
        ensures { pricing.AreKnown (O.table offers.now) self.now.choices.orders result }
    {
        let mut least = [0; 8];
        for slot in 0..self.choices.slots() {
            least[slot as usize] = best_price(offers, slot, &[]);
        }
        KnownPrices {
            least,
            places: [0; 8],
            prices: least,
        }
    }

    /// The least price at which a slot gives the order at a place, which is then known.
    #[inline(always)]
    fn price<O: Offers>(&self, offers: &O, known: &mut KnownPrices, slot: u8, place: u8) -> u128
        requires slot { slot < length self.now.choices.orders }
        requires known { pricing.AreKnown (O.table offers.now) self.now.choices.orders known.old }
        ensures exact { result ≡ pricing.best_price (O.table offers.now) slot (order_in self.now.choices.orders slot place) }
        ensures most { result ≤ UNOFFERED }
        ensures known { pricing.AreKnown (O.table offers.now) self.now.choices.orders known.new }
    {
        if place == 0 {
            return known.least[slot as usize];
        }
        if place == known.places[slot as usize] {
            return known.prices[slot as usize];
        }
        let price = best_price(offers, slot, self.choices.order(slot, place));
        known.places[slot as usize] = place;
        known.prices[slot as usize] = price;
        price
    }

    /// The lower of a cost and what comes of a template's internal cost and the least prices of the orders that it needs.
    #[inline(always)]
    fn lowered_by<O: Offers>(
        &self,
        offers: &O,
        known: &mut KnownPrices,
        template: &Template,
        least: u128,
    ) -> u128
        requires known { pricing.AreKnown (O.table offers.now) self.now.choices.orders known.old }
        requires most { least ≤ UNOFFERED }
        ensures exact { result ≡ pricing.lower least (pricing.template_cost (O.table offers.now) self.now.choices.orders template.now) }
        ensures most { result ≤ least }
        ensures known { pricing.AreKnown (O.table offers.now) self.now.choices.orders known.new }
    {
        let mut sum = template.internal;
        for slot in 0..self.choices.slots() {
            if sum >= least {
                return least;
            }
            sum += self.price(offers, known, slot, template.needs[slot as usize]);
        }
        if sum < least { sum } else { least }
    }

    /// What a least plan of the cache's task costs over these offers, in thousandths of a page read: the least over the
    /// templates of the internal cost and, for each slot, the least price of an offer that begins with the order that
    /// the template needs of it (INUM's cached cost). Each slot has an offer with no order. It takes no memory.
    pub fn cost<O: Offers>(&self, offers: &O) -> u128
        requires { HavePlain self.now (O.table offers.now) }
        ensures cached { (task : Task) → IsCacheOf task self.now → CachedBy (IsIn task self.now.templates) task (O.table offers.now) result }
        ensures least { (task : Task) → IsCacheOf task self.now → Least task (O.table offers.now) result }
    {
        offers.limits();
        let mut known = self.known_prices(offers);
        let templates = self.templates.as_slice();
        let mut least = UNOFFERED;
        for k in 0..templates.len() {
            least = self.lowered_by(offers, &mut known, &templates[k], least);
        }
        least
    }
}
