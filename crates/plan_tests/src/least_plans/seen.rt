//! What stands in plans.
use adv_base::Item;
use plan_model::{GroupStep, Plan};
use planner::Found;

/// How often each operator stands in some plans; of the sorts also how many are by more than one item, and how many by a
/// column downwards.
#[derive(Clone, Copy, Debug)]
pub struct Seen {
    merges: u32,
    hashes: u32,
    sorts: u32,
    longer_sorts: u32,
    downward_sorts: u32,
    sorted_groups: u32,
    hashed_groups: u32,
    final_sorts: u32,
}

fn is_downward(item: &Item) -> bool {
    match item {
        Item::Up { .. } => false,
        Item::Down { .. } => true,
        Item::Made(_) => false,
    }
}

impl Seen {
    pub fn new() -> Seen {
        Seen {
            merges: 0,
            hashes: 0,
            sorts: 0,
            longer_sorts: 0,
            downward_sorts: 0,
            sorted_groups: 0,
            hashed_groups: 0,
            final_sorts: 0,
        }
    }

    fn sort(&mut self, order: &[Item]) {
        self.sorts = self.sorts.wrapping_add(1);
        if order.len() > 1 {
            self.longer_sorts = self.longer_sorts.wrapping_add(1);
        }
        if order.iter().any(is_downward) {
            self.downward_sorts = self.downward_sorts.wrapping_add(1);
        }
    }

    fn plan(&mut self, plan: &Plan) {
        match plan {
            Plan::Leaf { .. } => {}
            Plan::Sort { order, input } => {
                self.sort(order.as_slice());
                self.plan(input);
            }
            Plan::Merge { left, right, .. } => {
                self.merges = self.merges.wrapping_add(1);
                self.plan(left);
                self.plan(right);
            }
            Plan::Hash { left, right } => {
                self.hashes = self.hashes.wrapping_add(1);
                self.plan(left);
                self.plan(right);
            }
        }
    }

    pub fn found(&mut self, found: &Found) {
        self.plan(&found.plan.body);
        match found.plan.group {
            GroupStep::Nothing => {}
            GroupStep::Sorted => self.sorted_groups = self.sorted_groups.wrapping_add(1),
            GroupStep::Hashed => self.hashed_groups = self.hashed_groups.wrapping_add(1),
        }
        if found.plan.final_sort {
            self.final_sorts = self.final_sorts.wrapping_add(1);
        }
    }

    /// How often what is rarest stands there.
    pub fn rarest(&self) -> u32 {
        self.merges
            .min(self.hashes)
            .min(self.sorts)
            .min(self.longer_sorts)
            .min(self.downward_sorts)
            .min(self.sorted_groups)
            .min(self.hashed_groups)
            .min(self.final_sorts)
    }
}
