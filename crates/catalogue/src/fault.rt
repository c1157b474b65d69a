//! Why a catalogue's text is refused, and at which of its keys.
ghost use Rattle.std.specs.Prelude.{◌≡◌};
ghost use Rattle.catalogue.specs.declared.fault.CatFault.TheVariants.{Memory};

use std::alloc::{AllocError, AllocFailed};
use thiserror::Error;

/// The part of a catalogue that a key stands in: the document itself, its rates, or a table, a column or an index.
#[derive(Clone, Copy, Debug, PartialEq, Eq)]
pub enum KeyPart {
    Whole,
    Rates,
    Table,
    Column,
    Index,
}

/// Which key of its part is meant; `Itself` is the part.
#[derive(Clone, Copy, Debug, PartialEq, Eq)]
pub enum KeyField {
    Itself,
    Version,
    SeqPage,
    RandPage,
    RowCpu,
    SortCpu,
    MergeCpu,
    HashCpu,
    GroupCpu,
    Name,
    Rows,
    Pages,
    MayCluster,
    Columns,
    Indexes,
    Kind,
    Width,
    Distinct,
    Low,
    High,
    Bounds,
    Keys,
    Unique,
    Clustered,
}

/// Where a key stands. Numbers count from 1, and 0 is none: `table` numbers the table, `item` the column or index in
/// it, `at` the element of an array of plain values. `Table` with table 0 is the array of tables.
#[derive(Clone, Copy, Debug, PartialEq, Eq)]
pub struct KeyPath {
    pub table: u32,
    pub part: KeyPart,
    pub item: u32,
    pub field: KeyField,
    pub at: u32,
}

/// Why there is no catalogue.
#[derive(Clone, Copy, Debug, PartialEq, Eq, Error)]
pub enum CatFault {
    /// Memory ran out.
    #[error("out of memory")]
    Memory,
    /// The bytes are no UTF-8, or the text is no TOML document.
    #[error("no TOML document")]
    NotToml,
    /// A key that is needed isn't there.
    #[error("missing: {0:?}")]
    Missing(KeyPath),
    /// A value is of another TOML type than its key wants.
    #[error("wrong kind: {0:?}")]
    WrongKind(KeyPath),
    /// A value is of the right type and not one that its key may have.
    #[error("out of range: {0:?}")]
    OutOfRange(KeyPath),
    /// A name that an earlier one of the same list has.
    #[error("name twice: {0:?}")]
    TwoNames(KeyPath),
    /// A key column that the table doesn't have.
    #[error("unknown name: {0:?}")]
    UnknownName(KeyPath),
}

impl From<AllocError> for CatFault {
    ghost from_gives = { λ _ e. e ≡ Memory };

    fn from(_e: AllocError) -> CatFault {
        CatFault::Memory
    }
}

impl<T: Drop> From<AllocFailed<T>> for CatFault {
    ghost from_gives = { λ _ e. e ≡ Memory };

    fn from(_e: AllocFailed<T>) -> CatFault {
        CatFault::Memory
    }
}
