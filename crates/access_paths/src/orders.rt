//! The orders that indexes deliver.
ghost use Rattle.std.specs.Prelude.{◌≡◌, IfOk};
ghost use Rattle.adv_base.specs.Access as access;

use crate::predicates::is_bound;
use adv_base::{Block, Item};
use std::alloc::{AllocError, Global};

/// What the rows that an index gives are sorted by: those of its keys that aren't bound, upwards.
#[tactic(auto, unfolding(adv_base::specs::Access::index_order))]
pub fn index_order(
    alloc: Global,
    block: &Block,
    slot: u8,
    keys: &[u16],
) -> Result<Vec<Item>, AllocError>
    ensures { IfOk result (λ order. order.items ≡ access.index_order block.now slot keys.now) }
{
    keys.iter()
        .filter(|key| !is_bound(block, slot, **key))
        .map(|key| Item::Up { slot, column: *key })
        .collect(alloc)
}
