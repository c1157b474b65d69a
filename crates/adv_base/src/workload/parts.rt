//! The parts of a block: slots, join edges and the items of its orders.
ghost use Rattle.std.specs.Prelude.{◌≢◌};

use crate::list::{List, Name};

/// An equality between columns of two different slots.
#[derive(Clone, Copy, Debug)]
pub struct Edge {
    pub left: u8,
    pub left_column: u16,
    pub right: u8,
    pub right_column: u16,
    pub ghost apart: { left ≢ right },
}

/// An item of an order: a column in ascending or in descending direction, or the number of an ORDER BY item that isn't
/// a column.
#[derive(Clone, Copy, Debug, PartialEq, Eq)]
pub enum Item {
    Up { slot: u8, column: u16 },
    Down { slot: u8, column: u16 },
    Made(u32),
}

/// A use of a table: the table's number, the name by which it goes, and the columns that the statement mentions.
#[derive(Debug, Drop)]
pub struct Slot {
    pub table: u16,
    pub name: Name,
    pub needed: List<u16>,
}
