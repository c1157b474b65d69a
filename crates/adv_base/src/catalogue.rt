//! What is known of a database: its tables with their statistics and indexes, and the prices of its operations.
ghost use Rattle.adv_base.specs.Limits.Catalogues.{CatalogueLimits};

pub mod column;
pub mod index;
pub mod rates;
pub mod table;

use crate::catalogue::rates::Rates;
use crate::catalogue::table::Table;
use crate::list::List;

/// The tables of a database and the rates at which its work is priced. There are at most 200 tables, with at most
/// 1000 indexes in all; each index's shape names the table that holds it.
#[derive(Debug, Drop)]
pub struct Catalogue {
    /// What each operation costs.
    pub rates: Rates,
    /// The tables, numbered from 0.
    pub tables: List<Table>,
    pub ghost limits: { CatalogueLimits tables },
}
