//! Plans without a search: with the sets of an earlier plan, and others made for nodes that these don't close.

use crate::deepening::MOST_DEEPER;
use crate::finding::Finder;
use crate::planner::{Best, MOST_SETS, Planner, Settled, Task};
use bip_model::Fix;
use interior_point::{at, put};

/// So many sets are kept beside the root's.
const KEPT: usize = 9;
/// The same where the plan had too many sets.
const KEPT_AGAIN: usize = 11;
/// The most times that candidates of the configuration that is known are exchanged, with fixings between.
const MOST_EXCHANGES: usize = 8;
/// The nodes that trials have.
const NODES: usize = 80;

/// The set that is named most, from a place to the end.
fn most_used(uses: &[usize; MOST_SETS], from: usize, end: usize) -> usize {
    let mut best = from;
    for set in from..end.min(MOST_SETS) {
        if uses[set] > at(uses, best, 0) {
            best = set;
        }
    }
    best
}

impl Planner {
    /// How many leaves of the plan name each set.
    fn uses(&self) -> [usize; MOST_SETS] {
        let mut uses = [0usize; MOST_SETS];
        for node in self.plan.iter() {
            let set = node.set as usize;
            if node.candidate == 0 && set < MOST_SETS {
                uses[set] = uses[set].saturating_add(1);
            }
        }
        uses
    }

    /// Keeps zeros, the root's set, and of the others those that most leaves of the plan name, so many at most.
    fn keep_used(&mut self, task: &Task<'_>, most: usize) {
        let mut uses = self.uses();
        let end = self.count.min(self.ledgers.len()).min(MOST_SETS);
        let first = end.min(2);
        let last = first.saturating_add(most).min(task.most_sets).min(end);
        self.count = first.min(task.most_sets);
        for place in first..last {
            let best = most_used(&uses, place, end);
            if best >= self.ledgers.len()
                || place >= self.ledgers.len()
                || at(&uses, best, 0) == 0
            {
                return;
            }
            let other = at(&uses, place, 0);
            put(&mut uses, best, other);
            self.ledgers.swap(place, best);
            self.count = place.saturating_add(1);
        }
    }

    /// Begins at a root with the sets that the last plan named most, or with so many that are recalled.
    pub(crate) fn begin_again(&mut self, task: &Task<'_>, root: &Fix, recalled: usize) {
        if recalled == 0 {
            self.keep_used(task, KEPT);
        }
        let kept = recalled.max(self.count).min(KEPT.saturating_add(2));
        self.begin(task, root);
        for set in 1..kept {
            self.add_known(task, set);
        }
        let _ = self.raise_best(task);
        self.hint = 0;
    }

    /// Adds the set whose rents stand at a place, with the price of a page that is best at the root.
    fn add_known(&mut self, task: &Task<'_>, set: usize) {
        if set < self.ledgers.len() && set == self.count {
            let ledger = &mut self.ledgers[set];
            ledger.price(task.matrix, &self.path);
            let page = ledger.page;
            self.add(task, page);
        }
    }

    /// Has the set that is best at the root stand first; where it stood.
    pub(crate) fn raise_best(&mut self, task: &Task<'_>) -> usize {
        let mut best = Best {
            set: 1,
            value: i128::MIN,
        };
        for set in 1..self.count {
            let value = self.ask(task, set);
            if value > best.value {
                best = Best { set, value };
            }
        }
        if best.set < self.ledgers.len() && self.ledgers.len() > 1 {
            self.ledgers.swap(1, best.set);
        }
        best.set
    }

    /// Plans below the root with the sets that there are and others, first with more than there may be; whether no leaf is left open
    /// and there are no more sets than that.
    pub(crate) fn plan_again(&mut self, task: &Task<'_>, finder: &mut Finder) -> bool {
        let wide = Task {
            most_sets: task.most_sets.midpoint(task.most_sets.saturating_mul(2)),
            ..*task
        };
        if !self.plan_below(&wide, finder) {
            return false;
        }
        if self.named() < task.most_sets {
            return true;
        }
        self.keep_used(task, KEPT_AGAIN);
        self.plan_below(task, finder)
    }

    /// How many sets the plan names, zeros left out and the root's counted in any case.
    fn named(&self) -> usize {
        let uses = self.uses();
        let mut count = 1usize;
        for set in 2..MOST_SETS {
            if uses[set] > 0 {
                count = count.saturating_add(1);
            }
        }
        count
    }

    /// Plans below the root; whether no leaf is left open.
    fn plan_below(&mut self, task: &Task<'_>, finder: &mut Finder) -> bool {
        self.begin_anew();
        let start = self.start();
        for _turn in 0..MOST_EXCHANGES {
            match self.settle(task, 3, usize::MAX) {
                Settled::Closed => {
                    self.finish(task, start);
                    return !self.has_open;
                }
                Settled::Full => break,
                Settled::Open(_) => {}
            }
            if !self.exchange(task, finder) {
                break;
            }
        }
        self.deepen(task, finder, NODES, MOST_DEEPER - 1);
        self.finish(task, start);
        !self.has_open
    }

    /// Exchanges candidates of the configuration that is known for what is open; whether that is cheaper.
    fn exchange(&mut self, task: &Task<'_>, finder: &mut Finder) -> bool {
        let fix = self.path.settled();
        let is_cheaper = finder.exchange(task.matrix, &fix, task.budget);
        if is_cheaper {
            self.aim(finder.best.cost);
        }
        is_cheaper
    }
}
