//! Columns with their statistics.
ghost use Rattle.adv_base.specs.Limits.Numbers.{ColumnLimits};

use crate::list::{List, Name};

/// What values a column holds.
#[derive(Clone, Copy, Debug, PartialEq, Eq)]
pub enum Kind {
    Int,
    Text,
    Date,
}

/// A column. `width` is in bytes, from 1 to 1000; `distinct` counts its different values, from 1 to 10^12, where it
/// is known; `low` and `high` are the ends of its values, as numbers or as days since 1970-01-01. `bounds` has the ends of
/// an equi-depth histogram, in the same numbers: none, or 2 to 257, none below the one before. Between each two
/// neighbours lie as many rows, and an end that stands more than once is a value that fills buckets.
#[derive(Debug, Drop)]
pub struct Column {
    pub name: Name,
    pub kind: Kind,
    pub width: u16,
    pub distinct: Option<u64>,
    pub low: Option<i64>,
    pub high: Option<i64>,
    pub bounds: List<i64>,
    pub ghost limits: { ColumnLimits width distinct low high bounds },
}
