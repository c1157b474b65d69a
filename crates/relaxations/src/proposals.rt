//! What is proposed to a search: a configuration, sets of multipliers, and a plan of its tree.
ghost use Rattle.bip_model.specs.Views.{AreMultipliers};

use crate::branching::RULES;
use crate::clashing::{groups_of, leave_out_clashing};
use crate::configuration::Chosen;
use crate::entering::matrix_of;
use crate::finding::Finder;
use crate::planner::{MOST_SETS, OVERFULL, PlanNode, Planner, Task};
use crate::rents::{clear, write_rents};
use crate::splitting::Splitter;
use crate::tree::MOST_NODES;
use adv_base::limits::MOST_PAGE_PRICE;
use adv_base::{Config, IndexShape, NoMemory};
use bip_model::{Fix, Multipliers, Programme, State};
use interior_point::{Matrix, at};
use std::alloc::Global;

/// Before there is a search, sets may be asked so often for each node of the last tree.
const ASKED_A_NODE: u64 = 60;
/// But so often in any case, however small that tree is.
const LEAST_ASKED: u64 = 20_000;
/// And not more often than this, however large it is.
const MOST_ASKED: u64 = 80_000;
/// The most of a cost that is looked at, 2^100.
pub(crate) const MOST_COST: u128 = 1_267_650_600_228_229_401_496_703_205_376;

/// A node of a plan, in preorder: the candidate of its branch, from 1, or 0 at a leaf; there the set that closes it, or the
/// best one: 0 for zeros, k for the k-th. The inner side of a branch stands behind it, the other one at `outside`; an inner
/// side at which two clash has no step.
#[derive(Clone, Copy)]
pub struct Step {
    pub candidate: u16,
    pub set: u8,
    pub outside: u32,
}

/// A space budget, and the most nodes and sets of a plan, zeros among these.
#[derive(Clone, Copy)]
struct Limits {
    budget: i64,
    nodes: usize,
    most_sets: usize,
}

/// All memory of proposals for one programme, and what was proposed last.
#[derive(Drop)]
pub struct Proposals {
    pub(crate) matrix: Matrix,
    finder: Finder,
    pub(crate) planner: Planner,
    splitter: Splitter,
    steps: Vec<Step>,
    /// The places of the sets that leaves name.
    kept: Vec<usize>,
    waiting: Vec<(usize, usize)>,
    root: Fix,
    limits: Limits,
    /// The configuration that was found last, if there is one.
    pub(crate) known: Option<Chosen>,
    /// How many sets are recalled of elsewhere, zeros among them, and a tree with them.
    pub(crate) recalled: usize,
    pub(crate) tree: Vec<PlanNode>,
    /// What the configuration costs for which the plan that stands was made along with it.
    planned: Option<i128>,
}

impl Proposals {
    /// All memory of proposals for a programme, with plans of at most so many nodes. Want of memory is the one error.
    pub fn new(alloc: Global, programme: &Programme, nodes: u32) -> Result<Proposals, NoMemory> {
        let most = nodes as usize;
        let steps = Vec::with_capacity(alloc, most)?;
        let kept = Vec::with_capacity(alloc, MOST_SETS)?;
        let waiting = Vec::with_capacity(alloc, 257)?;
        let splitter = Splitter::new(alloc, most)?;
        let matrix = matrix_of(alloc, programme)?;
        let finder = Finder::new(alloc, &matrix)?;
        let planner = Planner::new(alloc, &matrix, most)?;
        Ok(Proposals {
            matrix,
            finder,
            planner,
            splitter,
            steps,
            kept,
            waiting,
            root: Fix::free(),
            limits: Limits {
                budget: 0,
                nodes: most,
                most_sets: 1,
            },
            known: None,
            recalled: 0,
            tree: Vec::with_capacity(alloc, 0)?,
            planned: None,
        })
    }

    /// The cheapest configuration that is found below a root for a space budget in pages, of candidates of these shapes that may
    /// be useful, for a plan of at most so many nodes and sets. What was found last is looked at first.
    pub fn find(
        &mut self,
        shapes: &[IndexShape],
        root: &Fix,
        useful: &[bool; 256],
        budget: u64,
        nodes: u32,
        most: usize,
    ) -> Config {
        self.matrix.groups = groups_of(shapes);
        self.root = *root;
        self.limits = Limits {
            budget: budget.min(i64::MAX as u64) as i64,
            nodes: nodes as usize,
            most_sets: most.saturating_add(1),
        };
        self.planned = None;
        for a in 0..256 {
            if !useful[a] && self.root.state[a] == State::Free {
                self.root.state[a] = State::Out;
            }
        }
        let is_shown = match self.known {
            Some(known) => {
                self.begin(Some(&known));
                self.find_again()
            }
            None => false,
        };
        if !is_shown {
            // As if nothing were known, so that what is found then is never worse for what was known.
            self.search(0, None);
        }
        self.remember()
    }

    /// Remembers the cheapest configuration that was found.
    fn remember(&mut self) -> Config {
        let on = self.finder.best.on;
        self.known = Some(on);
        Config { on }
    }

    /// Begins a search at the root, with a configuration that is known, if one is.
    fn begin(&mut self, known: Option<&Chosen>) {
        let mut settled = self.root;
        let _ = leave_out_clashing(&self.matrix, &mut settled);
        self.finder
            .begin(&self.matrix, &settled, self.limits.budget, known);
    }

    /// Searches from the root by the rules from one on until a search comes to its end, at first with a configuration that is
    /// known, if one is.
    fn search(&mut self, first: usize, known: Option<Chosen>) {
        let mut known = known;
        let has_groups = self.has_groups();
        for number in first..RULES.len() {
            self.begin(known.as_ref());
            self.finder.rule = number + 1;
            let visits = if has_groups {
                RULES[number].visits
            } else {
                MOST_NODES
            };
            let budget = self.limits.budget;
            if self.finder.find(&self.matrix, budget, visits) || !has_groups {
                break;
            }
            known = Some(self.finder.best.on);
        }
    }

    /// Whether candidates clash.
    fn has_groups(&self) -> bool {
        self.matrix.groups.iter().any(|group| *group != 0)
    }

    /// Plans from the cheapest configuration that is known on, without a search; whether it is shown that nothing is cheaper.
    fn find_again(&mut self) -> bool {
        let asked = (self.tree.len() as u64).saturating_mul(ASKED_A_NODE);
        let task = Task {
            most_asked: asked.max(LEAST_ASKED).min(MOST_ASKED),
            is_brief: true,
            rounds: true,
            ..task_of(&self.matrix, &self.limits)
        };
        self.planner.aim(self.finder.best.cost);
        let recalled = self.recalled;
        self.recalled = 0;
        let mut is_closed = false;
        if !self.tree.is_empty() {
            let tree = self.tree.as_mut_slice();
            self.planner
                .begin_recalled(&task, &self.root, recalled, tree);
            is_closed = self.planner.plan_retracing(&task, tree);
            self.tree.clear();
        }
        if !is_closed {
            self.planner.begin_again(&task, &self.root, recalled);
            is_closed = self.planner.plan_again(&task, &mut self.finder);
        }
        if is_closed {
            self.planned = Some(self.planner.cost);
        }
        is_closed
    }

    /// Makes sets, and with them a plan that is to show that no configuration below the root of `find` is cheaper than a cost,
    /// or than what is found meanwhile: the cheapest configuration that is known then.
    pub fn plan(&mut self, cost: u128) -> Config {
        let whole = cost.min(MOST_COST) as i128;
        if self.planned != Some(whole) {
            self.plan_anew(whole);
            self.plan_by_others(whole);
        }
        let task = task_of(&self.matrix, &self.limits);
        self.splitter.read(self.planner.plan.as_slice());
        self.splitter.split(&task, &mut self.planner);
        let numbers = self.keep_sets();
        self.write_steps(&numbers);
        self.remember()
    }

    /// While a leaf is left open, plans along the trees of searches by further rules; where each leaves one open, along that
    /// tree again whose least open leaf was worth most.
    fn plan_by_others(&mut self, cost: i128) {
        let mut best = self.finder.rule;
        let mut least = self.planner.least;
        for _turn in 0..RULES.len() {
            if !self.planner.has_open || !self.may_differ() {
                break;
            }
            self.plan_by(self.finder.rule, cost);
            if self.planner.least > least {
                best = self.finder.rule;
                least = self.planner.least;
            }
        }
        if best != self.finder.rule {
            self.plan_by(best.saturating_sub(1), cost);
        }
    }

    /// Makes sets and a plan along the tree of a search by the rules from one on.
    fn plan_by(&mut self, first: usize, cost: i128) {
        let known = self.finder.best.on;
        self.search(first, Some(known));
        self.plan_anew(cost);
    }

    /// Makes sets and a plan along the tree of the last search, which may have found what is cheaper.
    fn plan_anew(&mut self, cost: i128) {
        let task = task_of(&self.matrix, &self.limits);
        let least = cost.min(self.finder.best.cost);
        self.planner.aim(self.finder.tree.reach(least));
        self.planner.begin(&task, &self.root);
        if self.planner.has_room(&task) {
            let _ = self.planner.add_own(&task, &mut self.finder);
        }
        self.planner.attempt_all(&task, &mut self.finder);
    }

    /// Whether a search by another rule may have another tree, for which there are nodes.
    fn may_differ(&self) -> bool {
        self.finder.rule < RULES.len()
            && (self.finder.rule == 0 || self.has_groups())
            && self.finder.tree.nodes.len() <= self.limits.nodes
    }

    /// Keeps the sets that leaves name, and answers the number of each. The root's is the first: that is compared with others at
    /// the root, so none that serves elsewhere is to stand in its place.
    fn keep_sets(&mut self) -> [u8; MOST_SETS] {
        let mut numbers = [0; MOST_SETS];
        self.kept.clear();
        for set in 1..MOST_SETS {
            for own in self.splitter.nodes.iter() {
                if own.node.candidate == 0 && own.node.set as usize == set {
                    if set > 1 && self.kept.is_empty() {
                        let _ = self.kept.push(1);
                    }
                    let _ = self.kept.push(set);
                    numbers[set] = (self.kept.len() & 255) as u8;
                    break;
                }
            }
        }
        numbers
    }

    /// Writes the steps of the plan.
    fn write_steps(&mut self, numbers: &[u8; MOST_SETS]) {
        self.steps.clear();
        self.waiting.clear();
        let mut place = 0;
        for _node in 0..self.splitter.nodes.len() {
            if place >= self.splitter.nodes.len() {
                break;
            }
            let own = self.splitter.nodes[place];
            let number = self.steps.len();
            if own.node.set != OVERFULL {
                let _ = self.steps.push(step_of(&own.node, numbers));
            }
            if own.node.candidate > 0 {
                let _ = self.waiting.push((number, own.sides[1]));
                place = own.sides[0];
            } else if let Some((above, outside)) = self.waiting.pop() {
                if above < self.steps.len() {
                    self.steps[above].outside = self.steps.len().min(u32::MAX as usize) as u32;
                }
                place = outside;
            }
        }
    }

    /// The plan that was made last, in preorder.
    pub fn steps(&self) -> &[Step] {
        self.steps.as_slice()
    }

    /// How many sets it has.
    pub fn set_count(&self) -> usize {
        self.kept.len()
    }

    /// Writes the set of a number, from 0, over multipliers of the programme.
    pub fn write_set(&self, number: usize, programme: &Programme, into: &mut Multipliers)
        requires { AreMultipliers programme.now into.old }
        ensures { AreMultipliers programme.now into.new }
    {
        let set = at(self.kept.as_slice(), number, usize::MAX);
        if set >= self.planner.ledgers.len() {
            return;
        }
        let ledger = &self.planner.ledgers[set];
        into.mu = (ledger.page.max(0) as u128).min(MOST_PAGE_PRICE);
        clear(into.lambda.items.as_mut_slice());
        write_rents(
            &self.matrix,
            ledger.rents.as_slice(),
            into.lambda.items.as_mut_slice(),
        );
    }
}

/// What is planned.
fn task_of<'a>(matrix: &'a Matrix, limits: &Limits) -> Task<'a> {
    Task {
        matrix,
        budget: limits.budget,
        nodes: limits.nodes,
        most_sets: limits.most_sets,
        most_asked: 0,
        is_brief: false,
        rounds: false,
    }
}

/// The step of a node, whose outer side is written later, where sets have these numbers.
fn step_of(node: &PlanNode, numbers: &[u8; MOST_SETS]) -> Step {
    Step {
        candidate: node.candidate,
        set: at(numbers, node.set as usize, 0),
        outside: 0,
    }
}
