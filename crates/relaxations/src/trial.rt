//! Trials: whether the sets that there are close a subtree with few nodes.

use crate::planner::{Best, Planner, Settled, Task};
use crate::tree::{TreeNode, is_marked};

/// The most branches down: each takes a candidate that is open.
pub(crate) const MOST_LEVELS: usize = 257;

/// What a trial may take: so many nodes of the plan in all; and the node of the tree whose fixings it takes first.
#[derive(Clone, Copy)]
pub(crate) struct Trial<'a> {
    pub nodes: usize,
    pub wanted: Option<&'a TreeNode>,
}

impl<'a> Trial<'a> {
    /// What it may take below a side of a branch: the fixings of the node of the tree are of no use on its other side.
    fn side(&self, candidate: usize, is_inside: bool) -> Trial<'a> {
        let wanted = match self.wanted {
            Some(node) => {
                let others = if is_inside {
                    &node.outside
                } else {
                    &node.inside
                };
                if is_marked(others, candidate) {
                    None
                } else {
                    Some(node)
                }
            }
            None => None,
        };
        Trial { wanted, ..*self }
    }
}

impl Planner {
    /// The candidate to branch on under a set.
    pub(crate) fn choice(
        &self,
        task: &Task<'_>,
        best: Best,
        wanted: Option<&TreeNode>,
    ) -> Option<usize> {
        if best.set >= self.ledgers.len() {
            return None;
        }
        let need = self.target.wrapping_sub(best.value).wrapping_add(1);
        let ledger = &self.ledgers[best.set];
        self.gains.choice(&self.path, ledger, need, wanted)
    }

    /// The candidate to branch on under a set whose gains aren't known yet.
    pub(crate) fn weighed_choice(&mut self, task: &Task<'_>, best: Best) -> Option<usize> {
        if best.set >= self.ledgers.len() {
            return None;
        }
        let ledger = &mut self.ledgers[best.set];
        self.gains.write(task.matrix, &self.path, ledger);
        self.choice(task, best, None)
    }

    /// The candidate to branch on where a leaf is split under a set: one that clashes and gains, or the one that promises most.
    pub(crate) fn split_choice(&mut self, task: &Task<'_>, best: Best) -> Option<usize> {
        let choice = self.weighed_choice(task, best);
        let clash = self.gains.best_clash(&self.path);
        if clash.is_some() { clash } else { choice }
    }

    /// Closes the subtree of the node; whether this was done. Else some of it may stand in the plan.
    #[cycle(trying)]
    fn try_both(&mut self, task: &Task<'_>, best: Best, trial: Trial<'_>, levels: usize) -> bool {
        let Some(candidate) = self.choice(task, best, trial.wanted) else {
            return false;
        };
        let depth = self.path.depth();
        self.branch(task, candidate);
        if !self.try_node(task, trial.side(candidate, true), levels) {
            return false;
        }
        self.go_outside(task, candidate, depth);
        self.try_node(task, trial.side(candidate, false), levels)
    }

    /// Closes the subtree of the node with the sets that there are; whether this was done. Else the plan is as it was.
    #[cycle(trying)]
    fn try_node(&mut self, task: &Task<'_>, trial: Trial<'_>, levels: usize) -> bool {
        if levels == 0 || self.asked > task.most_asked.saturating_mul(2) {
            return false;
        }
        let start = self.start();
        let pending = self.pending;
        let is_closed = match self.settle(task, 1, trial.nodes) {
            Settled::Closed => true,
            Settled::Full => false,
            Settled::Open(best) => self.try_both(task, best, trial, levels - 1),
        };
        if is_closed {
            self.finish(task, start);
        } else {
            self.abandon(task, start, pending);
        }
        is_closed
    }

    /// Closes the subtree of the node with the sets that there are and so many nodes; whether this was done. Else the plan is
    /// as it was.
    pub(crate) fn close(
        &mut self,
        task: &Task<'_>,
        nodes: usize,
        wanted: Option<&TreeNode>,
    ) -> bool {
        let trial = Trial {
            nodes: self.nodes().saturating_add(nodes),
            wanted,
        };
        self.try_node(task, trial, MOST_LEVELS)
    }
}
