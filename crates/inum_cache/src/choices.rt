//! The orders among which a combination chooses one for each slot.
ghost use Rattle.std.specs.Prelude.{◌≡◌, ℕ, ◌+◌, ◌<◌, ◌≤◌, [], length};
ghost use Rattle.adv_base.specs.declared.limits.TheConstants.{MOST_COLUMNS, MOST_SLOTS};
ghost use Rattle.adv_base.specs.OfferTables.{OfferLimits};
ghost use Rattle.inum_cache.specs.Numbering as numbering;

use adv_base::{Item, List};

/// The orders of each slot. A combination has a place among them for each slot.
#[derive(Drop)]
pub(crate) struct Choices {
    pub orders: List<List<List<Item>>>,
    pub ghost few: { length orders ≤ MOST_SLOTS },
    pub ghost sizes: { (slot : ℕ) → slot < length orders → numbering.size_in orders slot ≤ MOST_COLUMNS + 3 },
    pub ghost first: { (slot : ℕ) → slot < length orders → numbering.order_in orders slot 0 ≡ [] },
    pub ghost own: { (slot place : ℕ) → OfferLimits slot (numbering.order_in orders slot place, 0) },
}

impl Choices {
    /// How many slots there are.
    pub(crate) fn slots(&self) -> u8
        ensures { result ≡ length self.now.orders }
    {
        self.orders.len() as u8
    }

    /// How many orders a slot has.
    pub(crate) fn size(&self, slot: u8) -> usize
        requires { slot < length self.now.orders }
        ensures { result ≡ numbering.size_in self.now.orders slot }
    {
        self.orders.as_slice()[slot as usize].len()
    }

    /// A slot's order at a place; the empty one past their end.
    pub(crate) fn order(&self, slot: u8, place: u8) -> &[Item]
        ensures { result.now ≡ numbering.order_in self.now.orders slot place }
    {
        match self.orders.as_slice().get(slot as usize) {
            None => &[],
            Some(orders) => match orders.as_slice().get(place as usize) {
                None => &[],
                Some(order) => order.as_slice(),
            },
        }
    }
}
