//! What a plan is made with: sets of multipliers, the node that is worked on, and the plan so far.

use crate::gains::Gains;
use crate::ledger::Ledger;
use crate::lifting::Lifting;
use crate::path::Path;
use adv_base::NoMemory;
use adv_base::limits::MOST_ENTRIES;
use bip_model::Fix;
use interior_point::{Matrix, at, put};
use std::alloc::Global;

/// The most sets with which a plan is made, zeros among them.
pub(crate) const MOST_SETS: usize = 49;
/// In place of a set at a leaf where two clash that are in.
pub(crate) const OVERFULL: u8 = u8::MAX;

/// A node of the plan: the candidate of its branch, from 1, or 0 at a leaf; there the set that closes it, or the best one
/// where none does and it is open.
#[derive(Clone, Copy)]
pub(crate) struct PlanNode {
    pub candidate: u16,
    pub set: u8,
    pub is_open: bool,
}

/// A branch of which a set closes one side at once: whether the candidate comes in on the other one, and whether the branch
/// is kept.
#[derive(Clone, Copy)]
pub(crate) struct Fixing {
    pub candidate: u8,
    pub is_inside: bool,
    pub set: u8,
    pub is_kept: bool,
}

/// A set, and the Lagrangian value under it, in parts of 65536.
#[derive(Clone, Copy)]
pub(crate) struct Best {
    pub set: usize,
    pub value: i128,
}

/// What is planned: at most so many nodes and sets, zeros among these. A brief attempt ends where a leaf is left open, and one
/// that rounds goes on with what is cheaper where rounding a relaxation finds that.
#[derive(Clone, Copy)]
pub(crate) struct Task<'a> {
    pub matrix: &'a Matrix,
    pub budget: i64,
    pub nodes: usize,
    pub most_sets: usize,
    pub most_asked: u64,
    pub is_brief: bool,
    pub rounds: bool,
}

/// Where a subtree begins: in the plan, among the fixings, and on the path.
#[derive(Clone, Copy)]
pub(crate) struct Start {
    pub place: usize,
    pub fixings: usize,
    pub depth: usize,
}

/// What became of a node: closed, open with its best set, or without room for more nodes.
pub(crate) enum Settled {
    Closed,
    Open(Best),
    Full,
}

/// What a plan is made with: the sets, of which `count` stand, the path to the node that is worked on, the plan so far, and
/// the nodes that it will have beside those; the branches of the present nodes of which one side is closed; which set closed
/// the last leaf; how often a set was asked; whether a leaf was left open; of each leaf the marks of the sets that close it; the
/// cost that nothing is to undercut, and the value above which a node is closed, in parts of 65536.
#[derive(Drop)]
pub(crate) struct Planner {
    pub ledgers: Vec<Ledger>,
    pub count: usize,
    pub path: Path,
    pub plan: Vec<PlanNode>,
    pub pending: usize,
    pub fixings: Vec<Fixing>,
    pub gains: Gains,
    pub hint: usize,
    pub asked: u64,
    pub has_open: bool,
    /// The least value of a leaf that is left open, in parts of 65536.
    pub least: i128,
    pub covers: Vec<u64>,
    pub cost: i128,
    pub target: i128,
    pub turns: Vec<(usize, usize)>,
    pub spans: Vec<(usize, usize)>,
    pub lifting: Lifting,
    is_heavy: bool,
    values: [i128; MOST_SETS],
    most_nodes: usize,
}

impl Planner {
    /// All memory of plans of at most so many nodes. Want of memory is the one error.
    pub(crate) fn new(alloc: Global, matrix: &Matrix, nodes: usize) -> Result<Planner, NoMemory> {
        let mut ledgers = Vec::with_capacity(alloc, MOST_SETS)?;
        for _set in 0..MOST_SETS {
            ledgers.push(Ledger::new(alloc, matrix)?)?;
        }
        Ok(Planner {
            ledgers,
            count: 0,
            path: Path::new(alloc)?,
            plan: Vec::with_capacity(alloc, nodes)?,
            pending: 0,
            fixings: Vec::with_capacity(alloc, 512)?,
            gains: Gains::BLANK,
            hint: 0,
            asked: 0,
            has_open: false,
            least: i128::MAX,
            covers: Vec::with_capacity(alloc, nodes)?,
            cost: 0,
            target: 0,
            turns: Vec::with_capacity(alloc, 257)?,
            spans: Vec::with_capacity(alloc, 512)?,
            lifting: Lifting::new(alloc, matrix)?,
            is_heavy: false,
            values: [0; MOST_SETS],
            most_nodes: nodes,
        })
    }

    /// Has the plan show that nothing undercuts a cost. A lower one leaves closed what is closed.
    pub(crate) fn aim(&mut self, cost: i128) {
        self.cost = cost;
        self.target = cost.wrapping_sub(1).wrapping_mul(65536);
    }

    /// Begins at a root, with zeros as the one set.
    pub(crate) fn begin(&mut self, task: &Task<'_>, root: &Fix) {
        self.gains.begin(task.matrix);
        self.path.begin(task.matrix, root, task.budget);
        self.count = 0;
        self.asked = 0;
        self.begin_anew();
        self.add(task, 0);
        self.hint = 0;
    }

    /// Begins a plan anew with the sets that there are.
    pub(crate) fn begin_anew(&mut self) {
        self.plan.clear();
        self.fixings.clear();
        self.pending = 0;
        self.has_open = false;
        self.least = i128::MAX;
        self.is_heavy = false;
        self.hint = self.count.saturating_sub(1).min(1);
    }

    /// Adds the set whose rents stand at the next place, with a price of a page, unless the sets would have too many rents:
    /// then no other is made.
    pub(crate) fn add(&mut self, task: &Task<'_>, page: i128) {
        if self.count < self.ledgers.len() {
            let ledger = &mut self.ledgers[self.count];
            ledger.page = page;
            ledger.open(task.matrix, &self.path, task.budget);
            let mut entries = 0usize;
            for (set, ledger) in self.ledgers.iter().enumerate() {
                if set <= self.count {
                    entries = entries.saturating_add(ledger.entries);
                }
            }
            if entries <= MOST_ENTRIES {
                self.count = self.count.saturating_add(1);
            } else {
                self.is_heavy = true;
            }
        }
    }

    /// Whether one more set may be made.
    pub(crate) fn has_room(&self, task: &Task<'_>) -> bool {
        self.count < task.most_sets.min(self.ledgers.len()) && !self.is_heavy
    }

    /// How many nodes the plan has, with those that are to come.
    pub(crate) fn nodes(&self) -> usize {
        self.plan.len().saturating_add(self.pending)
    }

    /// Whether the plan can't take another branch within so many nodes.
    pub(crate) fn is_full(&self, task: &Task<'_>, nodes: usize) -> bool {
        let most = nodes.min(task.nodes).min(self.most_nodes);
        self.nodes().saturating_add(3) > most
    }

    /// Where a subtree begins now.
    pub(crate) fn start(&self) -> Start {
        Start {
            place: self.plan.len(),
            fixings: self.fixings.len(),
            depth: self.path.depth(),
        }
    }

    /// Goes back to so many steps.
    pub(crate) fn go_back(&mut self, task: &Task<'_>, depth: usize) {
        for set in 0..self.count.min(self.ledgers.len()) {
            self.ledgers[set].go_back(&self.path, depth);
        }
        self.path.go_back(task.matrix, depth);
    }

    /// The value under a set, in parts of 65536.
    pub(crate) fn ask(&mut self, task: &Task<'_>, set: usize) -> i128 {
        if set >= self.ledgers.len() || set >= self.count {
            return i128::MIN / 4;
        }
        self.asked = self.asked.wrapping_add(1);
        let value = self.ledgers[set].value(task.matrix, &self.path);
        put(&mut self.values, set, value);
        value
    }

    /// The set that closes the node, or the best one.
    pub(crate) fn best(&mut self, task: &Task<'_>) -> Best {
        let hint = self.hint;
        let mut best = Best {
            set: 0,
            value: i128::MIN / 4,
        };
        for turn in 0..self.count {
            let set = if turn == 0 {
                hint
            } else if turn <= hint {
                turn - 1
            } else {
                turn
            };
            let value = self.ask(task, set);
            if value > best.value {
                best = Best { set, value };
            }
            if value > self.target {
                break;
            }
        }
        best
    }

    /// Appends a leaf.
    pub(crate) fn put_leaf(&mut self, best: Best, is_open: bool) {
        if is_open {
            self.has_open = true;
            self.least = self.least.min(best.value);
        }
        let _ = self.plan.push(PlanNode {
            candidate: 0,
            set: (best.set & 255) as u8,
            is_open,
        });
    }

    /// Appends a branch, and takes its inner side. The outer one is yet to come.
    pub(crate) fn branch(&mut self, task: &Task<'_>, candidate: usize) {
        let _ = self.plan.push(PlanNode {
            candidate: (candidate & 255) as u16 + 1,
            set: 0,
            is_open: false,
        });
        self.pending = self.pending.saturating_add(1);
        self.path.go(task.matrix, candidate, true);
    }

    /// Goes from the inner side of a branch to the outer one.
    pub(crate) fn go_outside(&mut self, task: &Task<'_>, candidate: usize, depth: usize) {
        self.go_back(task, depth);
        self.pending = self.pending.saturating_sub(1);
        self.path.go(task.matrix, candidate, false);
    }

    /// Takes the other side of a branch of which a set closes one.
    pub(crate) fn take_fixing(&mut self, task: &Task<'_>, fixing: Fixing) {
        let _ = self.fixings.push(fixing);
        self.pending = self.pending.saturating_add(2);
        let candidate = fixing.candidate as usize;
        self.path.go(task.matrix, candidate, fixing.is_inside);
    }

    /// What closes the other side of a branch on a candidate, if anything does, under a set with which so much is needed. What
    /// clashes is left out where that gains.
    fn closing(&self, a: usize, is_inside: bool, set: u8, need: i128) -> Option<u8> {
        let outside = at(&self.gains.outside, a, 0);
        let is_out = outside < need;
        if self.path.is_clash(a) {
            if !is_inside && outside > 0 {
                return Some(OVERFULL);
            }
        } else if is_inside != is_out && (is_inside || at(&self.gains.inside, a, 0) >= need) {
            return Some(set);
        }
        None
    }

    /// Takes all fixings under a set, within so many nodes: first what is left out, which may not be open after what comes in.
    /// Whether there are any.
    pub(crate) fn fix(&mut self, task: &Task<'_>, best: Best, nodes: usize) -> bool {
        if best.set >= self.ledgers.len() {
            return false;
        }
        let need = self.target.wrapping_sub(best.value).wrapping_add(1);
        let ledger = &mut self.ledgers[best.set];
        self.gains.write(task.matrix, &self.path, ledger);
        let mut is_any = false;
        for is_inside in [false, true] {
            for a in 0..256 {
                if !self.path.is_open(a) || self.is_full(task, nodes) {
                    continue;
                }
                if let Some(set) = self.closing(a, is_inside, (best.set & 255) as u8, need) {
                    let candidate = (a & 255) as u8;
                    self.take_fixing(
                        task,
                        Fixing {
                            candidate,
                            is_inside,
                            set,
                            is_kept: true,
                        },
                    );
                    is_any = true;
                }
            }
        }
        is_any
    }

    /// The set that promises most where what clashes is left out, and isn't among some.
    fn next_best(&self, tried: &[usize]) -> Best {
        let mut best = Best {
            set: usize::MAX,
            value: i128::MIN,
        };
        let mut most = i128::MIN;
        for set in 0..self.count.min(self.ledgers.len()) {
            let value = at(&self.values, set, 0);
            let promised = value.wrapping_add(self.path.lost(&self.ledgers[set].terms));
            if promised > most && !tried.contains(&set) {
                most = promised;
                best = Best { set, value };
            }
        }
        best
    }

    /// Closes the node where a set does so, else takes fixings under the best sets, at most so many, until there are none.
    pub(crate) fn settle(&mut self, task: &Task<'_>, sets: usize, nodes: usize) -> Settled {
        for _pass in 0..256 {
            let best = self.best(task);
            if best.value > self.target {
                self.hint = best.set;
                self.put_leaf(best, false);
                return Settled::Closed;
            }
            if self.is_full(task, nodes) {
                return Settled::Full;
            }
            let mut tried = [usize::MAX; 3];
            let mut is_any = false;
            for turn in 0..sets.min(3) {
                let next = self.next_best(&tried);
                put(&mut tried, turn, next.set);
                is_any = self.fix(task, next, nodes);
                if is_any {
                    break;
                }
            }
            if !is_any {
                return Settled::Open(best);
            }
        }
        Settled::Full
    }

    /// Takes back what was begun.
    pub(crate) fn abandon(&mut self, task: &Task<'_>, start: Start, pending: usize) {
        self.go_back(task, start.depth);
        self.fixings.truncate(start.fixings);
        self.plan.truncate(start.place);
        self.pending = pending;
    }
}
