//! Tasks.
ghost use Rattle.plan_model.specs.Limits.Tasks.{TaskLimits};

use crate::edge::TaskEdge;
use adv_base::{Item, List, Rates};

/// What a planner needs of a block: 1 to 8 slots that fewer than 2^32 edges connect, the rows of each set of slots (as a
/// number whose binary digit s is slot s), the list to group by with the rows that come of it, the list to order by, and
/// the rates. Rows are from 1 to 10^12, and column numbers below 200.
#[derive(Debug, Drop)]
pub struct Task {
    pub slots: u8,
    pub edges: List<TaskEdge>,
    pub rows: List<u64>,
    pub group: Option<List<Item>>,
    pub group_rows: u64,
    pub order: List<Item>,
    pub rates: Rates,
    pub ghost limits: { TaskLimits slots edges rows group group_rows order },
}
