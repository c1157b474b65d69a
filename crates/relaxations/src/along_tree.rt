//! The plan of a tree whose leaves a few sets of multipliers close, along the tree of the search for a configuration.

use crate::deepening::MOST_DEEPER;
use crate::finding::Finder;
use crate::planner::{Best, Fixing, Planner, Settled, Task};
use crate::tree::{NO_BRANCH, NO_NODE, Tree, TreeNode, is_marked};
use crate::trial::MOST_LEVELS;
use interior_point::float_of;

/// An inner node has a set of its own where the others miss this many times what its own bound misses.
const FAR: f64 = 1.2;
/// So many sets are kept for leaves.
const KEPT_FOR_LEAVES: usize = 3;

/// A node of the tree.
fn node_of(tree: &Tree, place: usize) -> Option<TreeNode> {
    if place < tree.nodes.len() {
        Some(tree.nodes[place])
    } else {
        None
    }
}

/// The candidate of a node's branch.
fn branch_of(node: &TreeNode) -> usize {
    node.branch as usize
}

/// Whether a node of the tree has a branch.
fn is_inner(node: &TreeNode) -> bool {
    node.branch != NO_BRANCH && node.sides[0] != NO_NODE
}

impl Planner {
    /// Whether a leaf is left open in a brief attempt.
    fn is_lost(&self, task: &Task<'_>) -> bool {
        self.has_open && task.is_brief
    }

    /// Whether sets have been asked as often as may be, or the attempt is lost.
    pub(crate) fn is_spent(&self, task: &Task<'_>) -> bool {
        self.asked >= task.most_asked || self.is_lost(task)
    }

    /// Whether the best set is far from the bound of an inner node of the tree, and there is room for another.
    fn is_far(&self, task: &Task<'_>, node: &TreeNode, best: Best) -> bool {
        if !is_inner(node)
            || node.parent == NO_NODE
            || self.count.saturating_add(KEPT_FOR_LEAVES) >= task.most_sets
        {
            return false;
        }
        let missing = float_of(self.target.wrapping_sub(best.value)) / 65536.0;
        let own = (float_of(self.cost) - node.bound).max(1.0);
        missing > FAR * own
    }

    /// Takes a fixing of the tree where a set closes its other side; whether one does.
    fn take_known(&mut self, task: &Task<'_>, candidate: usize, is_inside: bool) -> bool {
        if !self.path.is_choice(candidate) || self.is_full(task, usize::MAX) {
            return false;
        }
        let depth = self.path.depth();
        self.path.go(task.matrix, candidate, !is_inside);
        let best = self.best(task);
        self.go_back(task, depth);
        if best.value <= self.target {
            return false;
        }
        self.hint = best.set;
        self.take_fixing(
            task,
            Fixing {
                candidate: (candidate & 255) as u8,
                is_inside,
                set: (best.set & 255) as u8,
                is_kept: true,
            },
        );
        true
    }

    /// Takes the fixings that a node of the tree has beyond the one above it; whether there are any.
    fn take_all_known(&mut self, task: &Task<'_>, tree: &Tree, node: &TreeNode) -> bool {
        let above = node_of(tree, node.parent as usize);
        let mut is_any = false;
        for a in 0..256 {
            let is_inside = is_marked(&node.inside, a);
            if !is_inside && !is_marked(&node.outside, a) {
                continue;
            }
            let is_older = match &above {
                Some(above) => is_marked(&above.inside, a) || is_marked(&above.outside, a),
                None => false,
            };
            if !is_older {
                is_any = self.take_known(task, a, is_inside) || is_any;
            }
        }
        is_any
    }

    /// The node of the tree for the present one: below those whose branch isn't on a candidate that may come in here.
    fn descend(&self, tree: &Tree, from: TreeNode) -> TreeNode {
        let mut node = from;
        for _level in 0..257 {
            let candidate = branch_of(&node);
            if !is_inner(&node) || self.path.is_choice(candidate) {
                break;
            }
            let side = if self.path.is_in(candidate) { 0 } else { 1 };
            match node_of(tree, node.sides[side] as usize) {
                Some(below) => node = below,
                None => break,
            }
        }
        node
    }

    /// Plans below a leaf of the tree, or a node that the tree hasn't: by a trial, by another with a set of its own, or deeper.
    pub(crate) fn plan_leaf(
        &mut self,
        task: &Task<'_>,
        finder: &mut Finder,
        wanted: Option<&TreeNode>,
        nodes: usize,
    ) {
        if self.is_spent(task) {
            let best = self.best(task);
            self.put_leaf(best, true);
            return;
        }
        if self.close(task, nodes, wanted) {
            return;
        }
        if self.has_room(task) {
            let _ = self.add_own(task, finder);
            if self.close(task, nodes.saturating_mul(8), wanted) {
                return;
            }
        }
        self.deepen(task, finder, nodes, MOST_DEEPER);
    }

    /// Settles a node with the sets that there are, one of its own where they are far from its bound, and the fixings of the
    /// tree. Whether it is closed.
    fn settle_along(
        &mut self,
        task: &Task<'_>,
        finder: &mut Finder,
        node: &mut TreeNode,
    ) -> Settled {
        let mut has_own = false;
        let mut has_known = false;
        for _pass in 0..8 {
            let settled = self.settle(task, 3, usize::MAX);
            let Settled::Open(best) = settled else {
                return settled;
            };
            *node = self.descend(&finder.tree, *node);
            if !has_own && self.is_far(task, node, best) {
                let _ = self.add_own(task, finder);
                has_own = true;
            } else if has_known || !self.take_all_known(task, &finder.tree, node) {
                return Settled::Open(best);
            } else {
                has_known = true;
            }
        }
        Settled::Open(self.best(task))
    }

    /// Plans below a node of the tree, with trials of so many nodes, at most so many levels down.
    #[cycle(planning)]
    fn plan_node(
        &mut self,
        task: &Task<'_>,
        finder: &mut Finder,
        from: TreeNode,
        nodes: usize,
        levels: usize,
    ) {
        if self.is_lost(task) {
            return;
        }
        let start = self.start();
        let mut node = from;
        match self.settle_along(task, finder, &mut node) {
            Settled::Closed => self.finish(task, start),
            Settled::Full => self.leave_open(task, start),
            Settled::Open(_) => {
                node = self.descend(&finder.tree, node);
                self.plan_sides(task, finder, &node, nodes, levels);
                self.finish(task, start);
            }
        }
    }

    /// The sides of a node of the tree whose branch is on a candidate that may come in.
    fn sides(&self, tree: &Tree, node: &TreeNode) -> Option<(TreeNode, TreeNode)> {
        if !is_inner(node) || !self.path.is_choice(node.branch as usize) {
            return None;
        }
        let inside = node_of(tree, node.sides[0] as usize)?;
        let outside = node_of(tree, node.sides[1] as usize)?;
        Some((inside, outside))
    }

    /// A candidate of a group that the tree has in at a node, and that may come in.
    fn known_member(&self, node: &TreeNode) -> Option<usize> {
        for a in 0..256 {
            if is_marked(&node.inside, a) && self.path.group(a) != 0 && self.path.is_choice(a) {
                return Some(a);
            }
        }
        None
    }

    /// Plans both sides of a node's branch, or below a leaf of the tree. What the tree has in of groups comes in before.
    #[cycle(planning)]
    fn plan_sides(
        &mut self,
        task: &Task<'_>,
        finder: &mut Finder,
        node: &TreeNode,
        nodes: usize,
        levels: usize,
    ) {
        let depth = self.path.depth();
        match self.sides(&finder.tree, node) {
            Some((inside, outside)) if levels > 0 => {
                if let Some(member) = self.known_member(node) {
                    self.branch(task, member);
                    self.plan_node(task, finder, *node, nodes, levels - 1);
                    self.go_outside(task, member, depth);
                    self.plan_leaf(task, finder, None, nodes);
                    self.go_back(task, depth);
                    return;
                }
                let candidate = node.branch as usize;
                self.branch(task, candidate);
                self.plan_node(task, finder, inside, nodes, levels - 1);
                self.go_outside(task, candidate, depth);
                self.plan_node(task, finder, outside, nodes, levels - 1);
                self.go_back(task, depth);
            }
            _ => self.plan_leaf(task, finder, Some(node), nodes),
        }
    }

    /// Plans along the tree, with trials of so many nodes; whether no leaf is left open.
    pub(crate) fn plan_along(
        &mut self,
        task: &Task<'_>,
        finder: &mut Finder,
        nodes: usize,
    ) -> bool {
        self.begin_anew();
        if let Some(root) = node_of(&finder.tree, 0) {
            self.plan_node(task, finder, root, nodes, MOST_LEVELS);
        }
        self.plan.iter().all(|node| !node.is_open)
    }
}
