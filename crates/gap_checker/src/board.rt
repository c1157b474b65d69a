//! The offers of all slots, as a search is shown them.
ghost use Rattle.adv_base.specs.OfferTables.{OfferTableLimits};
ghost use Rattle.gap_checker.specs.inner.Rows.{table_of};

use crate::row::{Row, Shown};
use adv_base::Item;
use plan_model::Offers;

/// The offers of a block's slots: of the table, of the indexes that exist, and of the candidates that are available.
#[derive(Drop)]
pub(crate) struct Board<'a> {
    pub rows: Vec<Row<'a>>,
    pub ghost limits: { OfferTableLimits (table_of rows.items) },
}

impl Board<'_> {
    ghost use Rattle.std.specs.Prelude.{◌≡◌, ◌<◌, length, Some, slice_get};
    ghost use Rattle.gap_checker.specs.inner.Rows as rows;

    /// The offer of a number.
    fn offer(&self, slot: u8, offer: u32) -> &Shown<'_>
        requires { offer < length (rows.table_of self.now.rows.items slot) }
        ensures { slice_get (rows.table_of self.now.rows.items slot) offer ≡ Some (rows.offer_of result.now) }
    {
        match self.rows.get(slot as usize) {
            Some(row) => &row.shown[offer as usize],
            None => unreachable!(),
        }
    }
}

impl Offers for Board<'_> {
    ghost use Rattle.gap_checker.specs.inner.Rows.{table_of};

    ghost table = { λ b. table_of b.rows.items };

    fn count(&self, slot: u8) -> u32 {
        match self.rows.get(slot as usize) {
            Some(row) => row.shown.len() as u32,
            None => 0,
        }
    }

    fn price(&self, slot: u8, offer: u32) -> u64 {
        self.offer(slot, offer).price
    }

    fn order(&self, slot: u8, offer: u32) -> &[Item] {
        self.offer(slot, offer).order
    }

    fn limits(&self) {}
}
