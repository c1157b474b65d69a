//! Plans along the tree of an earlier answer, whose sets are recalled.

use crate::planner::{PlanNode, Planner, Settled, Task};
use crate::trial::MOST_LEVELS;
use bip_model::Fix;

/// Sets are asked at most so many times as often as the tree has nodes, or so often where that is more.
const TIMES_ASKED: u64 = 2;

const LEAST_ASKED: u64 = 200;
/// The nodes below a leaf that its set doesn't close any more.
const NODES: usize = 24;

/// The place behind a subtree.
fn behind(tree: &[PlanNode], place: usize) -> usize {
    let mut open = 1usize;
    for at in place..tree.len() {
        if tree[at].candidate > 0 {
            open = open.saturating_add(1);
        } else {
            open = open.saturating_sub(1);
        }
        if open == 0 {
            return at.saturating_add(1);
        }
    }
    tree.len()
}

/// Has two sets of a tree change their numbers.
fn swap_sets(tree: &mut [PlanNode], one: u8, other: u8) {
    for node in tree.iter_mut() {
        if node.set == one {
            node.set = other;
        } else if node.set == other {
            node.set = one;
        }
    }
}

impl Planner {
    /// Begins at a root with zeros and so many sets that are recalled behind them, as they were; the one that is best at the root
    /// stands first then, and has that number in a tree of which they are.
    pub(crate) fn begin_recalled(
        &mut self,
        task: &Task<'_>,
        root: &Fix,
        recalled: usize,
        tree: &mut [PlanNode],
    ) {
        self.begin(task, root);
        for set in 1..recalled.min(task.most_sets) {
            if set < self.ledgers.len() && set == self.count {
                let page = self.ledgers[set].page;
                self.add(task, page);
            }
        }
        let best = self.raise_best(task);
        swap_sets(tree, 1, (best & 255) as u8);
    }

    /// Plans along a tree with the sets that there are; whether no leaf is left open.
    pub(crate) fn plan_retracing(&mut self, task: &Task<'_>, tree: &[PlanNode]) -> bool {
        let most_asked = (tree.len() as u64).saturating_mul(TIMES_ASKED);
        let own = Task {
            most_asked: most_asked.max(LEAST_ASKED),
            ..*task
        };
        self.begin_anew();
        let _ = self.retrace(&own, tree, 0, MOST_LEVELS);
        !self.has_open
    }

    /// Plans below the present node along a tree from a place; the place behind what is below it.
    #[cycle(retracing)]
    fn retrace(
        &mut self,
        task: &Task<'_>,
        tree: &[PlanNode],
        place: usize,
        levels: usize,
    ) -> usize {
        if place >= tree.len()
            || levels == 0
            || self.is_spent(task)
            || self.is_full(task, usize::MAX)
        {
            self.has_open = true;
            return tree.len();
        }
        let node = tree[place];
        let next = place.saturating_add(1);
        if node.candidate == 0 {
            self.plan_known_leaf(task, node.set as usize);
            return next;
        }
        let candidate = (node.candidate as usize).wrapping_sub(1);
        if self.path.is_choice(candidate) {
            let depth = self.path.depth();
            self.branch(task, candidate);
            let outside = self.retrace(task, tree, next, levels - 1);
            self.go_outside(task, candidate, depth);
            let end = self.retrace(task, tree, outside, levels - 1);
            self.go_back(task, depth);
            end
        } else if self.path.is_in(candidate) {
            let outside = self.retrace(task, tree, next, levels - 1);
            behind(tree, outside)
        } else {
            self.retrace(task, tree, behind(tree, next), levels - 1)
        }
    }

    /// Plans below a leaf that a set closed, with no other sets: where these don't do, the whole tree is of little use.
    fn plan_known_leaf(&mut self, task: &Task<'_>, set: usize) {
        if set < self.count {
            self.hint = set;
        }
        let start = self.start();
        let is_closed = match self.settle(task, 3, usize::MAX) {
            Settled::Closed => true,
            Settled::Full => false,
            Settled::Open(_) => self.close(task, NODES, None),
        };
        if is_closed {
            self.finish(task, start);
        } else {
            self.has_open = true;
        }
    }
}
