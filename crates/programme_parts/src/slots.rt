//! The prices of one slot of a block.
ghost use Rattle.std.specs.Prelude.{◌<◌, ◌≤◌, All, IfOk, length};
ghost use Rattle.adv_base.specs.Named.{NamesBlock, NamesShape};
ghost use Rattle.adv_base.specs.declared.limits.TheConstants.{MOST_CANDIDATES};
ghost use Rattle.bip_model.specs.Limits.Grants.{MOST_ORDERS};
ghost use Rattle.programme_parts.specs.inner.Every.{AreEvery};
ghost use Rattle.programme_parts.specs.inner.Prices.{IsSlotPriced};

use crate::every::every_candidate;
use crate::slot_reader::SlotReader;
use access_paths::ConfigOffers;
use adv_base::{Block, Catalogue, IndexShape, Item, List, NoMemory};
use bip_model::SlotPart;
use std::alloc::Global;

/// The offers of a block's slots where every candidate is chosen.
pub(crate) fn every_offer(
    alloc: Global,
    cat: &Catalogue,
    block: &Block,
    shapes: &[IndexShape],
) -> Result<ConfigOffers, NoMemory>
    requires named { NamesBlock cat.now block.now }
    requires shapes_named { All (NamesShape cat.now) shapes.now }
    requires few { length shapes.now ≤ MOST_CANDIDATES }
    ensures { IfOk result (AreEvery cat.now block.now shapes.now) }
{
    let every = every_candidate(shapes.len());
    ConfigOffers::new(alloc, cat, block, shapes, &every)
}

/// The prices of a slot, from 0, by the offers of its block where every candidate is chosen: of each of these orders the
/// least price that exists, and the price of each candidate on the slot's table that gives it.
pub(crate) fn slot_part(
    alloc: Global,
    cat: &Catalogue,
    block: &Block,
    shapes: &[IndexShape],
    offers: &ConfigOffers,
    slot: u8,
    orders: &[List<Item>],
) -> Result<SlotPart, NoMemory>
    requires named { NamesBlock cat.now block.now }
    requires few { length shapes.now ≤ MOST_CANDIDATES }
    requires every { AreEvery cat.now block.now shapes.now offers.now }
    requires slot { slot < length block.now.slots }
    requires orders { length orders.now ≤ MOST_ORDERS }
    ensures { IfOk result (IsSlotPriced cat.now block.now shapes.now slot orders.now) }
{
    let reader = SlotReader { offers, slot };
    let part = reader.part(alloc, orders)?;
    Ok(part)
}
