//! What two files describe.
ghost use Rattle.adv_base.specs.Limits.Settings.{SettingLimits};

use adv_base::{Catalogue, IndexShape, List, Statement};

/// A catalogue, the statements of a workload over it, and its candidate indexes with the count of those left over.
#[derive(Drop)]
pub struct Opened {
    pub cat: Catalogue,
    pub statements: List<Statement>,
    pub shapes: List<IndexShape>,
    pub left_over: u64,
    pub ghost limits: { SettingLimits cat statements shapes },
}
