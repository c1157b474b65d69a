//! Thinning: fixings that nothing needed are taken out above a subtree that is closed.

use crate::planner::{Fixing, OVERFULL, PlanNode, Planner, Start, Task};
use interior_point::{at, put};

/// The most nodes of a subtree whose fixings are thinned.
const MOST_THINNED: usize = 200;
/// The same where relaxations are rounded.
const MOST_ROUNDED: usize = 30;
/// The most spans of fixings that are tried.
const MOST_SPANS: usize = 1024;
/// The same where relaxations are rounded.
const FEW_SPANS: usize = 24;

/// In place of what isn't there.
const NO_FIXING: Fixing = Fixing {
    candidate: 0,
    is_inside: false,
    set: 0,
    is_kept: false,
};

pub(crate) const NO_NODE: PlanNode = PlanNode {
    candidate: 0,
    set: 0,
    is_open: true,
};

impl Planner {
    /// Whether a set closes the node, or two that are in clash where this is said in its place.
    pub(crate) fn closes(&mut self, task: &Task<'_>, set: u8) -> bool {
        if set == OVERFULL {
            return self.path.members.clashes > 0;
        }
        let asked = self.asked;
        let value = self.ask(task, set as usize);
        self.asked = asked;
        value > self.target
    }

    /// Takes the outer side of the last branch whose inner side was left.
    pub(crate) fn turn(&mut self, task: &Task<'_>) {
        if let Some((candidate, depth)) = self.turns.pop() {
            self.go_back(task, depth);
            self.path.go(task.matrix, candidate, false);
        }
    }

    /// Whether the sets of its leaves close the subtree from a place of the plan on also at the present node.
    fn still_closes(&mut self, task: &Task<'_>, place: usize) -> bool {
        self.turns.clear();
        for at_node in place..self.plan.len() {
            let node = at(self.plan.as_slice(), at_node, NO_NODE);
            let candidate = (node.candidate as usize).wrapping_sub(1);
            if node.candidate > 0 && self.path.is_open(candidate) {
                let _ = self.turns.push((candidate, self.path.depth()));
                self.path.go(task.matrix, candidate, true);
            } else if node.candidate > 0 || node.is_open || !self.closes(task, node.set) {
                return false;
            } else {
                self.turn(task);
            }
        }
        true
    }

    /// Takes a fixing on the path; whether its candidate is open, and the other side is still closed where this is asked.
    fn takes(&mut self, task: &Task<'_>, fixing: Fixing, is_asked: bool) -> bool {
        let candidate = fixing.candidate as usize;
        if !self.path.is_open(candidate) {
            return false;
        }
        if is_asked {
            let depth = self.path.depth();
            self.path.go(task.matrix, candidate, !fixing.is_inside);
            let is_closed = self.closes(task, fixing.set);
            self.go_back(task, depth);
            if !is_closed {
                return false;
            }
        }
        self.path.go(task.matrix, candidate, fixing.is_inside);
        true
    }

    /// Whether the fixings of a subtree that are kept, and the subtree, are closed without the others.
    fn holds(&mut self, task: &Task<'_>, start: Start) -> bool {
        self.go_back(task, start.depth);
        let mut is_less = false;
        for number in start.fixings..self.fixings.len() {
            let fixing = at(self.fixings.as_slice(), number, NO_FIXING);
            if !fixing.is_kept {
                is_less = true;
            } else if !self.takes(task, fixing, is_less) {
                return false;
            }
        }
        self.still_closes(task, start.place)
    }

    /// Keeps the fixings of some numbers or not.
    fn keep(&mut self, from: usize, to: usize, is_kept: bool) {
        for number in from..to.min(self.fixings.len()) {
            self.fixings[number].is_kept = is_kept;
        }
    }

    /// Whether a subtree is small, and no leaf of it is open.
    fn is_small(&self, task: &Task<'_>, place: usize) -> bool {
        let most = if task.rounds {
            MOST_ROUNDED
        } else {
            MOST_THINNED
        };
        if self.plan.len().saturating_sub(place) > most {
            return false;
        }
        for at_node in place..self.plan.len() {
            if self.plan[at_node].is_open {
                return false;
            }
        }
        true
    }

    /// Finds which fixings above a subtree are needed: all go, else by halves.
    fn thin(&mut self, task: &Task<'_>, start: Start) {
        if self.fixings.len() <= start.fixings || !self.is_small(task, start.place) {
            return;
        }
        let most = if task.rounds { FEW_SPANS } else { MOST_SPANS };
        self.spans.clear();
        let _ = self.spans.push((start.fixings, self.fixings.len()));
        for _span in 0..most {
            let Some((from, to)) = self.spans.pop() else {
                return;
            };
            self.keep(from, to, false);
            if self.holds(task, start) {
                continue;
            }
            self.keep(from, to, true);
            let middle = from.midpoint(to);
            if middle > from {
                let _ = self.spans.push((from, middle));
                let _ = self.spans.push((middle, to));
            }
        }
    }

    /// Moves the plan from a place on so many nodes back.
    fn make_way(&mut self, place: usize, count: usize) {
        let end = self.plan.len();
        for _node in 0..count {
            let _ = self.plan.push(NO_NODE);
        }
        for back in 1..end.saturating_sub(place).saturating_add(1) {
            let from = end.saturating_sub(back);
            let node = at(self.plan.as_slice(), from, NO_NODE);
            put(self.plan.as_mut_slice(), from.saturating_add(count), node);
        }
    }

    /// Puts the branches of the fixings that are kept above a subtree, with a leaf on the side that is closed.
    fn wrap(&mut self, start: Start) {
        let mut count = 0usize;
        for number in start.fixings..self.fixings.len() {
            let fixing = self.fixings[number];
            if fixing.is_kept {
                count = count.saturating_add(if fixing.is_inside { 1 } else { 2 });
            }
        }
        self.make_way(start.place, count);
        let mut place = start.place;
        for number in start.fixings..self.fixings.len() {
            let fixing = at(self.fixings.as_slice(), number, NO_FIXING);
            if fixing.is_kept {
                put(self.plan.as_mut_slice(), place, fixing.branch());
                place = place.saturating_add(1);
                if !fixing.is_inside {
                    put(self.plan.as_mut_slice(), place, fixing.leaf());
                    place = place.saturating_add(1);
                }
            }
        }
        for _fixing in start.fixings..self.fixings.len() {
            if let Some(fixing) = self.fixings.pop() {
                if fixing.is_kept && fixing.is_inside {
                    let _ = self.plan.push(fixing.leaf());
                }
            }
        }
    }

    /// Ends a subtree, with the fixings that it needs above it, and goes back to where it begins.
    pub(crate) fn finish(&mut self, task: &Task<'_>, start: Start) {
        let count = self.fixings.len().saturating_sub(start.fixings);
        self.thin(task, start);
        self.go_back(task, start.depth);
        self.pending = self.pending.saturating_sub(count.saturating_mul(2));
        self.wrap(start);
    }
}

impl Fixing {
    /// Its branch.
    fn branch(&self) -> PlanNode {
        PlanNode {
            candidate: self.candidate as u16 + 1,
            set: 0,
            is_open: false,
        }
    }

    /// The leaf on the side that is closed.
    fn leaf(&self) -> PlanNode {
        PlanNode {
            candidate: 0,
            set: self.set,
            is_open: false,
        }
    }
}
