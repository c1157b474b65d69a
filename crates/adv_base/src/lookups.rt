//! What the numbers of tables, columns and slots name.
ghost use Rattle.std.specs.Prelude.{◌≡◌, ◌<◌, Some, length, slice_get};
ghost use Rattle.std.specs.Option.{option_copied};
ghost use Rattle.adv_base.specs.Lookups as lookups;
ghost use Rattle.adv_base.specs.Named.{NamesBlock};

use crate::catalogue::Catalogue;
use crate::catalogue::column::Column;
use crate::catalogue::table::Table;
use crate::workload::block::Block;

/// The table of a number, where the catalogue has it.
pub fn table_at(cat: &Catalogue, table: u16) -> Option<&Table>
    ensures { option_copied result ≡ lookups.table_at cat.now table }
{
    cat.tables.as_slice().get(table as usize)
}

/// The table that a slot of the block reads.
pub fn slot_table<'a>(cat: &'a Catalogue, block: &Block, slot: u8) -> &'a Table
    requires named { NamesBlock cat.now block.now }
    requires there { slot < length block.now.slots }
    ensures { lookups.slot_table cat.now block.now slot ≡ Some result.now }
{
    let source = &block.slots.items[slot as usize];
    &cat.tables.items[source.table as usize]
}

/// A column of a table, by its number.
pub fn table_column(table: &Table, column: u16) -> &Column
    requires { column < length table.now.columns }
    ensures { slice_get table.now.columns column ≡ Some result.now }
{
    &table.columns.items[column as usize]
}
