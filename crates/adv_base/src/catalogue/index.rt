//! Indexes, those that exist and those that might.
ghost use Rattle.adv_base.specs.Limits.Numbers.{KeyLimits};

use crate::list::{List, Name};

/// What an index is, without a name: 1 to 8 different key columns of one table, by number.
#[derive(Debug, Drop)]
pub struct IndexShape {
    /// The number of the table.
    pub table: u16,
    /// The numbers of the key columns, the leading one first.
    pub keys: List<u16>,
    /// No two rows agree on all keys.
    pub unique: bool,
    /// The rows of the table lie in the order of the keys.
    pub clustered: bool,
    pub ghost limits: { KeyLimits keys },
}

/// An index that exists.
#[derive(Debug, Drop)]
pub struct Index {
    pub name: Name,
    pub shape: IndexShape,
}
