//! The offers of one slot, as a search is shown them.
ghost use Rattle.std.specs.Prelude.{◌≤◌, length};
ghost use Rattle.adv_base.specs.declared.limits.TheConstants.{MOST_OFFERS};

use adv_base::Item;

/// An offer: what the rows are sorted by, and its price with the rent, in thousandths of a page read.
#[derive(Clone, Copy)]
pub(crate) struct Shown<'a> {
    pub order: &'a [Item],
    pub price: u64,
}

/// The offers of a slot.
#[derive(Drop)]
pub(crate) struct Row<'a> {
    pub shown: Vec<Shown<'a>>,
    pub ghost few: { length shown.items ≤ MOST_OFFERS },
}
