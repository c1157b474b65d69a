//! The rows of a group.
ghost use Rattle.std.specs.Prelude.{◌≡◌, ◌≤◌, ◌^◌, length, unwrap_or, true};
ghost use Rattle.adv_base.specs.Named.{NamesBlock, NamesItems, names_item};
ghost use Rattle.adv_base.specs.Rows as row;
ghost use Rattle.cardinality.specs.Tables.{HoldsRows};
ghost use Rattle.adv_base.specs.declared.limits.TheConstants.{MOST_ROWS};

use crate::parts::slot_distinct_count;
use crate::table::{Rows, crossed};
use adv_base::{Block, Catalogue, Item};

/// An unknown number of distinct values counts as this many.
const UNKNOWN_COUNT: u64 = 10;

/// The number of distinct values of an item's column, or 10 where it isn't known or the item is no column.
fn item_count(cat: &Catalogue, block: &Block, item: &Item) -> u64
    requires named { NamesBlock cat.now block.now }
    requires there { names_item cat.now block.now item.now ≡ true }
    ensures exact { result ≡ unwrap_or (row.item_distinct cat.now block.now item.now) 10 }
    ensures least { 1 ≤ result }
    ensures most { result ≤ MOST_ROWS }
{
    let count = match *item {
        Item::Up { slot, column } => slot_distinct_count(cat, block, slot, column),
        Item::Down { slot, column } => slot_distinct_count(cat, block, slot, column),
        Item::Made(_) => None,
    };
    count.unwrap_or(UNKNOWN_COUNT)
}

/// The rows of the block grouped by a list, from 1 to 10^12: no more than there are combinations of distinct values of
/// the list's columns, where an unknown number of values counts as 10, and no more than the join of all slots has.
pub fn group_rows(cat: &Catalogue, block: &Block, items: &[Item], rows: &Rows) -> u64
    requires named { NamesBlock cat.now block.now }
    requires items_named { NamesItems cat.now block.now items.now }
    requires table { HoldsRows cat.now block.now (2 ^ length block.now.slots) rows.now.of }
    ensures exact { result ≡ row.group_rows cat.now block.now items.now }
    ensures least { 1 ≤ result }
    ensures most { result ≤ MOST_ROWS }
{
    let mut groups = 1;
    for item in items {
        groups = crossed(groups, item_count(cat, block, item));
    }
    groups.min(rows.of_all())
}
