//! Blocks.
ghost use Rattle.adv_base.specs.Limits.Blocks.{BlockLimits};

use crate::list::List;
use crate::workload::parts::{Edge, Item, Slot};
use crate::workload::predicate::Pred;

/// What one SELECT, UPDATE or DELETE reads: 1 to 8 slots that its edges connect, predicates, and the lists by which it
/// groups and orders. Both lists are without bound and repeated columns. `may_cover` says that an index may stand for
/// the table's rows.
#[derive(Debug, Drop)]
pub struct Block {
    pub slots: List<Slot>,
    pub preds: List<Pred>,
    pub edges: List<Edge>,
    pub group: Option<List<Item>>,
    pub order: List<Item>,
    pub may_cover: bool,
    pub ghost limits: { BlockLimits slots preds edges group order },
}
