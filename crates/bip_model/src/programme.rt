//! Programmes.
ghost use Rattle.bip_model.specs.Limits.Programmes.{ProgrammeLimits};

use crate::part::Part;
use adv_base::List;

/// CoPhy's programme of a workload: for each candidate its pages and its upkeep, the sum of weight times upkeep over all
/// statements; that of the indexes that exist; and the parts of the statements that have a block, in order. Upkeep is in
/// thousandths of a page read.
#[derive(Debug, Drop)]
pub struct Programme {
    pub sizes: List<u64>,
    pub upkeep: List<u128>,
    pub kept: u128,
    pub parts: List<Part>,
    pub ghost limits: { ProgrammeLimits sizes upkeep kept parts },
}
