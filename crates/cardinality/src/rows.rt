//! Numbers of rows, from 1 to 10^12.
ghost use Rattle.std.specs.Prelude.{◌≡◌, ◌==◌, ◌<◌, ◌≤◌, length, Contains, if◌then◌else◌};
ghost use Rattle.adv_base.specs.Named.{NamesBlock};
ghost use Rattle.adv_base.specs.Parts as part;
ghost use Rattle.adv_base.specs.Rows as row;
ghost use Rattle.adv_base.specs.Sums as sum;
ghost use Rattle.adv_base.specs.declared.limits.TheConstants.{MOST_PAGES, MOST_ROWS};

use crate::parts::part_of;
use adv_base::{Block, Catalogue, Pred, Table, slot_table, times_part};

/// The rows of a table, which count as at least 1.
pub fn table_rows(table: &Table) -> u64
    ensures exact { result ≡ row.table_rows table.now }
    ensures least { 1 ≤ result }
    ensures most { result ≤ MOST_ROWS }
{
    table.rows.max(1)
}

/// The pages of a table, which count as at least 1.
pub fn table_pages(table: &Table) -> u64
    ensures exact { result ≡ row.table_pages table.now }
    ensures least { 1 ≤ result }
    ensures most { result ≤ MOST_PAGES }
{
    table.pages.max(1)
}

/// The rows of a slot after one more predicate of the block, which counts where it is of that slot.
fn rows_after(cat: &Catalogue, block: &Block, slot: u8, rows: u64, pred: &Pred) -> u64
    requires named { NamesBlock cat.now block.now }
    requires own { Contains block.now.preds pred.now }
    requires some { 1 ≤ rows }
    requires few { rows ≤ MOST_ROWS }
    ensures exact { result ≡ (if pred.now.slot == slot then sum.times_part rows (part.pred_part cat.now block.now pred.now) else rows) }
    ensures least { 1 ≤ result }
    ensures most { result ≤ MOST_ROWS }
{
    if pred.slot == slot {
        times_part(rows, part_of(cat, block, pred))
    } else {
        rows
    }
}

/// The filtered rows of a slot of the block: those of its table, at least 1, taken through each predicate of the slot
/// in written order.
#[tactic(auto, unfolding(adv_base::specs::Rows::filtered_rows))]
pub fn slot_rows(cat: &Catalogue, block: &Block, slot: u8) -> u64
    requires named { NamesBlock cat.now block.now }
    requires there { slot < length block.now.slots }
    ensures exact { result ≡ row.filtered_rows cat.now block.now slot }
    ensures least { 1 ≤ result }
    ensures most { result ≤ MOST_ROWS }
{
    let mut rows = table_rows(slot_table(cat, block, slot));
    for pred in block.preds.items.iter() {
        rows = rows_after(cat, block, slot, rows, pred);
    }
    rows
}
