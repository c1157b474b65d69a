//! Orders, the edges between sets of slots, and what plans deliver.
ghost use Rattle.std.specs.Prelude.{◌≡◌, ◌↔◌, ◌<◌, IsTrue};
ghost use Rattle.std.specs.List.{list_any};
ghost use Rattle.adv_base.specs.Items.{BeginsWith};
ghost use Rattle.plan_model.specs.Limits.Tasks.{AreNumbered};
ghost use Rattle.plan_model.specs.Orders as orders;
ghost use Rattle.plan_model.specs.Plans as plans;

use crate::edge::TaskEdge;
use crate::offers::Offers;
use crate::plan::Plan;
use crate::task::Task;
use adv_base::{Item, has_slot};

/// Whether an edge has one end in each of two sets.
pub fn crosses(left: usize, right: usize, edge: &TaskEdge) -> bool
    ensures { result ≡ plans.crosses left right edge.now }
{
    has_slot(left, edge.left) && has_slot(right, edge.right)
        || has_slot(left, edge.right) && has_slot(right, edge.left)
}

/// Whether some edge has one end in each of two sets.
pub fn are_joined(edges: &[TaskEdge], left: usize, right: usize) -> bool
    ensures { result ≡ list_any (plans.crosses left right) edges.now }
{
    edges.iter().any(|edge| crosses(left, right, edge))
}

/// Whether an item is a column of a slot in the set.
pub fn is_column_of(set: usize, item: &Item) -> bool
    ensures { result ≡ plans.is_column_of set item.now }
{
    match item {
        Item::Up { slot, .. } => has_slot(set, *slot),
        Item::Down { slot, .. } => has_slot(set, *slot),
        Item::Made(_) => false,
    }
}

/// Whether an order begins with another.
pub fn begins_with(order: &[Item], front: &[Item]) -> bool
    ensures { IsTrue result ↔ BeginsWith order.now front.now }
{
    order.starts_with(front)
}

/// Whether an order begins as a merge on the edge wants the side of that set to begin.
pub fn serves(order: &[Item], edge: &TaskEdge, set: usize) -> bool
    ensures { IsTrue result ↔ BeginsWith order.now (plans.side_need edge.now set) }
{
    let need = if has_slot(set, edge.left) {
        edge.left_need
    } else {
        edge.right_need
    };
    match need {
        None => true,
        Some(item) => begins_with(order, &[item]),
    }
}

/// The order in which a plan gives its rows.
pub(crate) fn delivered<'a, O: Offers>(offers: &'a O, plan: &'a Plan) -> &'a [Item]
    ensures { result.now ≡ plans.delivers (O.table offers.now) plan.now }
{
    match plan {
        Plan::Leaf { slot, offer } => {
            if *offer < offers.count(*slot) {
                offers.order(*slot, *offer)
            } else {
                &[]
            }
        }
        Plan::Sort { order, .. } => order.as_slice(),
        Plan::Merge { left, .. } => delivered(offers, left),
        Plan::Hash { .. } => &[],
    }
}

impl Task {
    /// The list to group by, or where the block doesn't group, the list to order by.
    pub fn wanted_list(&self) -> &[Item]
        ensures exact { result.now ≡ orders.wanted_list self.now.group self.now.order }
        ensures numbered { AreNumbered result.now }
    {
        match &self.group {
            Some(group) => group.as_slice(),
            None => self.order.as_slice(),
        }
    }
}
