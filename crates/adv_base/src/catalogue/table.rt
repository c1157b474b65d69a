//! Tables.
ghost use Rattle.adv_base.specs.Limits.Tables.{TableLimits};

use crate::catalogue::column::Column;
use crate::catalogue::index::Index;
use crate::list::{List, Name};

/// A table: its counts of rows and of pages, each at most 10^12, its 1 to 200 columns and its indexes, whose keys are
/// columns of the table. `may_cluster` says that its rows may be laid in the order of an index that is yet to be built.
#[derive(Debug, Drop)]
pub struct Table {
    pub name: Name,
    pub rows: u64,
    pub pages: u64,
    pub may_cluster: bool,
    pub columns: List<Column>,
    pub indexes: List<Index>,
    pub ghost limits: { TableLimits rows pages columns indexes },
}
