//! Deepening: below a leaf of the tree that no trial closes, branches on what its relaxation has most in doubt.

use crate::finding::Finder;
use crate::planner::{Best, Planner, Settled, Start, Task};
use std::num::nearest_i64_to_f64;

/// So many branches go down at most, and so many of these only where all sets are made.
pub(crate) const MOST_DEEPER: usize = 36;

const LAST_LEVELS: usize = 24;
/// The nodes of a trial before a set is made, where relaxations are rounded too.
const TRIED_FIRST: usize = 60;
/// Less than this is no doubt.
const LEAST_DOUBT: f64 = 1e-3;

impl Planner {
    /// The open candidate of the most pages in doubt under a set, or else the one that promises most.
    fn most_doubtful(&mut self, task: &Task<'_>, best: Best) -> Option<usize> {
        if best.set >= self.ledgers.len() {
            return None;
        }
        let mut found = None;
        let mut most = 0.0;
        for a in 0..256 {
            if self.path.is_choice(a) {
                let share = self.ledgers[best.set].shares[a];
                let pages = nearest_i64_to_f64(task.matrix.sizes[a]) + 1.0;
                let doubt = share.min(1.0 - share).max(1e-9) * pages;
                if doubt > most {
                    most = doubt;
                    found = Some(a);
                }
            }
        }
        if most < LEAST_DOUBT {
            self.weighed_choice(task, best)
        } else {
            found
        }
    }

    /// Takes fixings, and makes a set where there is room: the best set then, or None where the node is closed.
    fn settle_own(&mut self, task: &Task<'_>, finder: &mut Finder, is_first: bool) -> Option<Best> {
        let mut own = None;
        for _pass in 0..2 {
            match self.settle(task, 3, usize::MAX) {
                Settled::Closed => return None,
                Settled::Full => break,
                Settled::Open(_) => {}
            }
            if is_first || own.is_some() || !self.has_room(task) || self.is_spent(task) {
                break;
            }
            if task.rounds && self.close(task, TRIED_FIRST, None) {
                return None;
            }
            own = Some(self.add_own(task, finder));
        }
        let best = self.best(task);
        match own {
            Some(set) => Some(Best {
                set,
                value: self.ask(task, set),
            }),
            None => Some(best),
        }
    }

    /// Ends a node of a leaf that is left open.
    pub(crate) fn leave_open(&mut self, task: &Task<'_>, start: Start) {
        let best = self.best(task);
        self.put_leaf(best, best.value <= self.target);
        self.finish(task, start);
    }

    /// Plans below a leaf of the tree, where so many branches may follow.
    pub(crate) fn deepen(
        &mut self,
        task: &Task<'_>,
        finder: &mut Finder,
        nodes: usize,
        levels: usize,
    ) {
        let start = self.start();
        let is_first = levels == MOST_DEEPER;
        let Some(best) = self.settle_own(task, finder, is_first) else {
            self.finish(task, start);
            return;
        };
        let has_room = self.has_room(task);
        let times = if has_room { 2 } else { 16 };
        let is_tried = !is_first || !has_room;
        if is_tried && !self.is_spent(task) && self.close(task, nodes.saturating_mul(times), None) {
            self.finish(task, start);
            return;
        }
        let is_deep = has_room && levels <= LAST_LEVELS;
        if levels == 0 || is_deep || self.is_full(task, usize::MAX) || self.is_spent(task) {
            self.leave_open(task, start);
            return;
        }
        match self.most_doubtful(task, best) {
            Some(candidate) => {
                let depth = self.path.depth();
                self.branch(task, candidate);
                self.deepen(task, finder, nodes, levels - 1);
                self.go_outside(task, candidate, depth);
                self.deepen(task, finder, nodes, levels - 1);
                self.finish(task, start);
            }
            None => self.leave_open(task, start),
        }
    }
}
