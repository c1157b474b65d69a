//! Labels.
use adv_base::{List, Name};

/// The words by which a plan is told: the name of each slot, the names of each slot's columns, and for each offer of each
/// slot the words that say how the slot is read.
#[derive(Debug, Drop)]
pub struct Labels {
    pub slots: List<Name>,
    pub columns: List<List<Name>>,
    pub offers: List<List<Name>>,
}
