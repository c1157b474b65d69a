//! The offers of one slot.
ghost use Rattle.std.specs.Prelude.{◌≤◌, length};
ghost use Rattle.adv_base.specs.declared.limits.TheConstants.{MOST_OFFERS};

use adv_base::{Item, List};

/// A way to read a slot: its price in thousandths of a page read, what the rows are sorted by, and the number of the
/// candidate that it uses, or none for the table and an index that exists.
#[derive(Debug, Drop)]
pub struct SlotOffer {
    pub price: u64,
    pub order: List<Item>,
    pub candidate: Option<u16>,
}

/// The ways to read a slot, one for each of its access paths.
#[derive(Debug, Drop)]
pub struct SlotOffers {
    pub offers: Vec<SlotOffer>,
    pub ghost few: { length offers.items ≤ MOST_OFFERS },
}
