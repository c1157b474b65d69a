//! The ways to read one slot.
ghost use Rattle.std.specs.Prelude.{◌≡◌, ◌++◌, ◌∷◌, [], OnOk, length};
ghost use Rattle.adv_base.specs.Lookups as lookup;
ghost use Rattle.adv_base.specs.Named.{NamesBlock};

use crate::orders::index_order;
use crate::paths::AccessPath;
use crate::price::{index_price, table_price};
use crate::slot_offers::SlotOffer;
use adv_base::{Block, Catalogue, IndexShape, List, NoMemory, Slot, Table};
use std::alloc::Global;

/// A slot of a block whose names the catalogue has, with its table.
#[derive(Clone, Copy)]
pub struct Reader<'a> {
    pub cat: &'a Catalogue,
    pub block: &'a Block,
    pub slot: u8,
    pub source: &'a Slot,
    pub table: &'a Table,
    pub ghost named: { NamesBlock cat.now block.now },
    pub ghost columns_are: { lookup.column_count cat.now source.now.table ≡ length table.now.columns },
}

/// Puts an offer at the end.
fn put(offers: &mut Vec<SlotOffer>, offer: SlotOffer) -> Result<(), NoMemory>
    ensures { OnOk result (offers.new.items ≡ offers.old.items ++ offer ∷ []) }
{
    offers.push(offer)?;
    Ok(())
}

impl<'a> Reader<'a> {
    ghost use Rattle.std.specs.Prelude.{◌≡◌, ◌<◌, [], All, IfOk, length, map};
    ghost use Rattle.adv_base.specs.Access as access;
    ghost use Rattle.adv_base.specs.Offers as ways;
    ghost use Rattle.access_paths.specs.inner.Paths as listed;
    ghost use Rattle.access_paths.specs.inner.Readers as reads;
    ghost use Rattle.access_paths.specs.inner.SlotOffers as kept;

    /// Reading the whole table, in no order.
    fn table_offer(&self, alloc: Global) -> SlotOffer
        ensures pair { kept.offer_of result ≡ ([], access.table_price self.now.cat.now self.now.table.now) }
        ensures candidate { result.candidate ≡ None }
    {
        SlotOffer {
            price: table_price(self.cat, self.table),
            order: List::new(alloc),
            candidate: None,
        }
    }

    /// Reading through an index.
    fn index_offer(
        &self,
        alloc: Global,
        shape: &IndexShape,
        candidate: Option<u16>,
    ) -> Result<SlotOffer, NoMemory>
        requires { All (λ key. key < length self.now.table.now.columns) shape.now.keys }
        ensures pair { IfOk result (λ o. kept.offer_of o ≡ ways.index_offer self.now.cat.now self.now.block.now self.now.slot self.now.source.now self.now.table.now shape.now) }
        ensures candidate_is { IfOk result (λ o. o.candidate ≡ candidate) }
    {
        let price = index_price(
            self.cat,
            self.block,
            self.slot,
            self.source,
            self.table,
            shape,
        );
        let items = index_order(alloc, self.block, self.slot, shape.keys.as_slice())?;
        Ok(SlotOffer {
            price,
            order: List { items },
            candidate,
        })
    }

    /// Reading along a path.
    fn offer(&self, alloc: Global, path: AccessPath<'_>) -> Result<SlotOffer, NoMemory>
        requires { listed.IsWithin self.now.table.now (listed.as_path path) }
        ensures pair { IfOk result (λ o. kept.offer_of o ≡ reads.offer_through self.now (listed.as_path path.entry)) }
        ensures candidate { IfOk result (λ o. o.candidate ≡ ways.path_candidate (listed.as_path path.entry)) }
    {
        match path {
            AccessPath::Heap => Ok(self.table_offer(alloc)),
            AccessPath::Existing(index) => self.index_offer(alloc, &index.shape, None),
            AccessPath::Candidate(number, shape) => self.index_offer(alloc, shape, Some(number)),
        }
    }

    /// Reading along each path.
    pub fn offers(
        &self,
        alloc: Global,
        paths: &[AccessPath<'_>],
    ) -> Result<Vec<SlotOffer>, NoMemory>
        requires { All (λ path. listed.IsWithin self.now.table.now (listed.as_path path)) paths.now }
        ensures pairs { IfOk result (λ os. kept.pairs_of os.items ≡ map (reads.offer_through self.now) (listed.as_paths paths.now)) }
        ensures numbers { IfOk result (λ os. kept.numbers_of os.items ≡ map ways.path_candidate (listed.as_paths paths.now)) }
    {
        let mut offers = Vec::new(alloc);
        for path in paths {
            let offer = self.offer(alloc, *path)?;
            put(&mut offers, offer)?;
        }
        Ok(offers)
    }
}
