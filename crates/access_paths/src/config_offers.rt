//! The offers of a block under a configuration.
ghost use Rattle.std.specs.Prelude.{◌≡◌, ◌++◌, ◌∷◌, [], OnOk};
ghost use Rattle.adv_base.specs.OfferTables.{OfferTableLimits};
ghost use Rattle.access_paths.specs.ConfigOffers as kept;

use crate::slot_access::slot_offers;
use crate::slot_offers::{SlotOffer, SlotOffers};
use adv_base::{Block, Catalogue, Config, IndexShape, Item, NoMemory};
use plan_model::Offers;
use std::alloc::Global;

/// The ways to read each slot of a block under a configuration, with their prices and orders, and which candidate each
/// of them is.
#[derive(Debug, Drop)]
pub struct ConfigOffers {
    pub slots: Vec<SlotOffers>,
    pub ghost limits: { OfferTableLimits (kept.table_of slots.items) },
}

/// Puts the offers of the next slot at the end.
fn put(slots: &mut Vec<SlotOffers>, offers: SlotOffers) -> Result<(), NoMemory>
    ensures { OnOk result (slots.new.items ≡ slots.old.items ++ offers ∷ []) }
{
    slots.push(offers)?;
    Ok(())
}

impl ConfigOffers {
    ghost use Rattle.std.specs.Prelude.{◌<◌, ◌≤◌, ℕ, All, IfOk, List, Some, length, slice_get};
    ghost use Rattle.adv_base.specs.declared.catalogue.Catalogue.{Catalogue};
    ghost use Rattle.adv_base.specs.declared.catalogue.index.IndexShape.{IndexShape};
    ghost use Rattle.adv_base.specs.declared.limits.TheConstants.{MOST_INDEX_PRICE, MOST_TABLE_PRICE};
    ghost use Rattle.adv_base.specs.declared.setting.Config.{Config};
    ghost use Rattle.adv_base.specs.declared.workload.block.Block.{Block};
    ghost use Rattle.adv_base.specs.Named.{NamesBlock, NamesShape};
    ghost use Rattle.adv_base.specs.OfferTables as tables;
    ghost use Rattle.adv_base.specs.Offers as ways;
    ghost use Rattle.access_paths.specs.ConfigOffers as kept;
    ghost use Rattle.access_paths.specs.inner.SlotOffers as stored;

    /// Prices each way to read each slot: the table, its indexes, and the configuration's candidates on it. The first
    /// offer of each slot is the whole table. A table costs at most 2 * 10^18 to read, an index at most 4 * 10^18.
    pub fn new(
        alloc: Global,
        cat: &Catalogue,
        block: &Block,
        shapes: &[IndexShape],
        config: &Config,
    ) -> Result<ConfigOffers, NoMemory>
        requires named { NamesBlock cat.now block.now }
        requires shapes_named { All (NamesShape cat.now) shapes.now }
        ensures offers_are { IfOk result (λ o. kept.table_of o.slots.items ≡ ways.offers cat.now block.now shapes.now config.now) }
        ensures candidates_are { IfOk result (λ o. (slot offer : ℕ) → kept.candidate_at o.slots.items slot offer ≡ ways.path_candidate_at cat.now block.now shapes.now config.now slot offer) }
        ensures tables_first { IfOk result (λ o. tables.BeginsWithTables cat.now block.now (kept.table_of o.slots.items)) }
        ensures table_prices { IfOk result (λ o. (slot : ℕ) → tables.price_at (kept.table_of o.slots.items) slot 0 ≤ MOST_TABLE_PRICE) }
        ensures prices { IfOk result (λ o. tables.PricesWithin MOST_INDEX_PRICE (kept.table_of o.slots.items)) }
    {
        let mut slots = Vec::new(alloc);
        let count = block.slots.len() as u8;
        for slot in 0..count {
            let offers = slot_offers(alloc, cat, block, slot, shapes, config)?;
            put(&mut slots, offers)?;
        }
        Ok(ConfigOffers { slots })
    }

    /// The offer of a number.
    fn offer(&self, slot: u8, offer: u32) -> &SlotOffer
        requires { offer < length (kept.table_of self.now.slots.items slot) }
        ensures pair { slice_get (kept.table_of self.now.slots.items slot) offer ≡ Some (stored.offer_of result.now) }
        ensures candidate { slice_get (kept.candidates_in_table self.now.slots.items slot) offer ≡ Some result.now.candidate }
    {
        match self.slots.get(slot as usize) {
            Some(offers) => &offers.offers[offer as usize],
            None => unreachable!(),
        }
    }

    /// Which candidate an offer of a slot is, by its number from 1; None exactly for the table and the indexes that exist.
    pub fn candidate_of(&self, slot: u8, offer: u32) -> Option<u16>
        requires { offer < length (kept.table_of self.now.slots.items slot) }
        ensures own { result ≡ kept.candidate_at self.now.slots.items slot offer }
        ensures which { (cat : Catalogue) (block : Block) (shapes : List IndexShape) (config : Config) → kept.AreOffersOf cat block shapes config self.now.slots.items → result ≡ ways.path_candidate_at cat block shapes config slot offer }
    {
        self.offer(slot, offer).candidate
    }
}

impl Offers for ConfigOffers {
    ghost use Rattle.access_paths.specs.ConfigOffers.{table_of};

    ghost table = { λ o. table_of o.slots.items };

    fn count(&self, slot: u8) -> u32 {
        match self.slots.get(slot as usize) {
            Some(offers) => offers.offers.len() as u32,
            None => 0,
        }
    }

    fn price(&self, slot: u8, offer: u32) -> u64 {
        self.offer(slot, offer).price
    }

    fn order(&self, slot: u8, offer: u32) -> &[Item] {
        self.offer(slot, offer).order.as_slice()
    }

    fn limits(&self) {}
}
