//! Finding the ways to read a slot.
ghost use Rattle.std.specs.Prelude.{◌≡◌, ◌<◌, All, IfOk, Some, length, map, slice_get};
ghost use Rattle.adv_base.specs.Named.{NamesBlock, NamesShape};
ghost use Rattle.adv_base.specs.Offers as ways;
ghost use Rattle.access_paths.specs.inner.SlotOffers as kept;

use crate::paths::paths_on;
use crate::reader::Reader;
use crate::slot_offers::SlotOffers;
use adv_base::{Block, Catalogue, Config, IndexShape, NoMemory, Slot, slot_table};
use std::alloc::Global;

/// A slot of the block.
fn slot_source(block: &Block, slot: u8) -> &Slot
    requires { slot < length block.now.slots }
    ensures { slice_get block.now.slots slot ≡ Some result.now }
{
    &block.slots.items[slot as usize]
}

/// The ways to read one slot: an offer for each of its access paths.
pub fn slot_offers(
    alloc: Global,
    cat: &Catalogue,
    block: &Block,
    slot: u8,
    shapes: &[IndexShape],
    config: &Config,
) -> Result<SlotOffers, NoMemory>
    requires named { NamesBlock cat.now block.now }
    requires shapes_named { All (NamesShape cat.now) shapes.now }
    requires there { slot < length block.now.slots }
    ensures pairs { IfOk result (λ o. kept.pairs_of o.offers.items ≡ ways.offers cat.now block.now shapes.now config.now slot) }
    ensures numbers { IfOk result (λ o. kept.numbers_of o.offers.items ≡ map ways.path_candidate (ways.paths cat.now block.now shapes.now config.now slot)) }
{
    let source = slot_source(block, slot);
    let table = slot_table(cat, block, slot);
    let reader = Reader {
        cat,
        block,
        slot,
        source,
        table,
    };
    let paths = paths_on(alloc, source.table, table, shapes, config)?;
    let offers = reader.offers(alloc, paths.as_slice())?;
    Ok(SlotOffers { offers })
}
