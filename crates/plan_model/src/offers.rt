//! Offers.
ghost use Rattle.std.specs.Prelude.{◌≡◌, ◌<◌, length};
ghost use Rattle.adv_base.specs.Offers.{OfferTable};
ghost use Rattle.adv_base.specs.OfferTables.{price_at, order_at, OfferTableLimits};

use adv_base::Item;

/// The ways to read each slot, numbered from 0. A price is in thousandths of a page read.
pub trait Offers {
    /// For each slot, its offers: an order and a price.
    ghost table: { Self → OfferTable };

    /// How many offers a slot has.
    fn count(&self, slot: u8) -> u32
        ensures { result ≡ length (table self.now slot) };

    /// The price of an offer.
    fn price(&self, slot: u8, offer: u32) -> u64
        requires { offer < length (table self.now slot) }
        ensures { result ≡ price_at (table self.now) slot offer };

    /// The order that an offer delivers.
    fn order(&self, slot: u8, offer: u32) -> &[Item]
        requires { offer < length (table self.now slot) }
        ensures { result.now ≡ order_at (table self.now) slot offer };

    /// Does nothing: it tells that a price is at most `MOST_PRICE`, and that an order is of upward items of its own slot,
    /// none of them twice.
    fn limits(&self)
        ensures { OfferTableLimits (table self.now) };
}
