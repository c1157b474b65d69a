//! The search for the cheapest configuration: best bound first, over linear relaxations, with fixings and roundings.

use crate::branching::RULES;
use crate::clashing::{GroupShares, leave_out_clashing, pages, sides};
use crate::configuration::{Chosen, Incumbent};
use crate::rounding::{Rounding, Shared, view_node};
use crate::tree::Tree;
use adv_base::NoMemory;
use bip_model::{Fix, State};
use interior_point::{Lagrangian, Losses, Matrix, Places, Relaxation, View, at, float_of, put};
use std::alloc::Global;

/// How near a relaxation comes to its optimum, as a part of what is missing.
const TOLERANCE: f64 = 0.01;
/// The most times that a node is relaxed.
const MOST_PASSES: u32 = 4;
/// A node is relaxed for the third time, or once more, only where so many candidates were fixed.
const MANY_FIXED: usize = 3;
/// A candidate whose share is nearer to a whole number than this is branched on last.
const LEAST_PART: f64 = 1e-4;
/// So often at first, and then once in so many times, the search goes on to a side of the branch that it made.
const FIRST_DIVES: u32 = 3;

const LATER_DIVES: u32 = 16;

/// The visit of a node: its states and its bound.
#[derive(Clone, Copy)]
struct Visit {
    fix: Fix,
    bound: f64,
    is_closed: bool,
}

/// What the search works with. `rents` has the rents of the last relaxation by link of the matrix, `own_rents` by link of the
/// view, and `shares` what it took of each candidate.
#[derive(Drop)]
pub(crate) struct Finder {
    pub view: View,
    pub lagrangian: Lagrangian,
    pub relaxation: Relaxation,
    pub tree: Tree,
    rounding: Rounding,
    losses: Losses,
    pub best: Incumbent,
    rents: Vec<f64>,
    own_rents: Vec<f64>,
    shares: [f64; 256],
    root_bound: f64,
    /// The number of the rule of the search whose tree stands, from 1, or 0 before there is one.
    pub rule: usize,
}

impl Finder {
    /// All memory that searches over a matrix take. Want of memory is the one error.
    pub(crate) fn new(alloc: Global, matrix: &Matrix) -> Result<Finder, NoMemory> {
        Ok(Finder {
            rents: vec![in alloc; 0.0; matrix.links.len()]?,
            own_rents: vec![in alloc; 0.0; matrix.links.len()]?,
            tree: Tree::new(alloc)?,
            lagrangian: Lagrangian::new(alloc, matrix)?,
            rounding: Rounding::new(alloc, matrix)?,
            view: View::new(alloc, matrix)?,
            relaxation: Relaxation::new(alloc, matrix)?,
            losses: Losses::BLANK,
            best: Incumbent {
                on: [false; 256],
                cost: 0,
            },
            shares: [0.0; 256],
            root_bound: 0.0,
            rule: 0,
        })
    }

    /// A node with this bound has nothing cheaper.
    fn target(&self) -> f64 {
        float_of(self.best.cost) - 0.5
    }

    /// Keeps the rents and shares of the relaxation.
    fn keep(&mut self) {
        for (link, rent) in self.view.links.iter().zip(self.relaxation.rents.iter()) {
            put(self.rents.as_mut_slice(), *link as usize, *rent);
        }
        for (candidate, share) in self
            .view
            .candidates
            .iter()
            .zip(self.relaxation.shares.iter())
        {
            self.shares[*candidate as usize] = *share;
        }
    }

    /// Opens the view of a node. Where no candidate is left, what is in is all there is.
    fn open(&mut self, matrix: &Matrix, budget: i64, visit: &mut Visit) {
        let node = view_node(&visit.fix, budget);
        self.view.open(matrix, &node, float_of(self.best.cost));
        if self.view.candidates.is_empty() {
            let _ = self
                .rounding
                .close(matrix, &visit.fix, budget, &mut self.best);
            visit.bound = visit.bound.max(self.view.constant);
            visit.is_closed = true;
        }
    }

    /// Solves the relaxation of the view and rounds it.
    fn relax(&mut self, matrix: &Matrix, budget: i64, visit: &mut Visit, is_first: bool) {
        let target = self.target();
        visit.is_closed = self
            .relaxation
            .solve(&self.view, &mut self.lagrangian, target, TOLERANCE);
        self.keep();
        visit.bound = visit.bound.max(self.relaxation.bound);
        if is_first {
            self.root_bound = visit.bound;
        }
        if visit.is_closed {
            return;
        }
        let node = Shared {
            fix: &visit.fix,
            view: &self.view,
            shares: self.relaxation.shares.as_slice(),
            budget,
        };
        let _ = self.rounding.round(matrix, &node, is_first, &mut self.best);
        visit.is_closed = self.relaxation.bound >= self.target();
    }

    /// Evaluates the view under the rents that were kept, and weighs its candidates. Answers what is missing to the target.
    fn evaluate(&mut self, visit: &mut Visit) -> f64 {
        for (own, link) in self.own_rents.iter_mut().zip(self.view.links.iter()) {
            *own = at(self.rents.as_slice(), *link as usize, 0.0);
        }
        let all = Places {
            from: 0,
            to: self.view.links.len(),
        };
        let target = self.target();
        let rents = all.of(self.own_rents.as_slice());
        self.lagrangian.evaluate(&self.view, rents);
        let missing = target - self.lagrangian.value;
        self.losses
            .weigh(&self.view, rents, &mut self.lagrangian, missing);
        visit.bound = visit.bound.max(self.lagrangian.value);
        missing
    }

    /// Fixes candidates of the view one of whose sides is closed under the rents of the relaxation; how many.
    fn fix(&mut self, visit: &mut Visit) -> usize {
        let missing = self.evaluate(visit);
        let mut count = 0usize;
        for number in 0..self.view.candidates.len() {
            let candidate = at(self.view.candidates.as_slice(), number, 0);
            let rises = self.losses.rises(&self.view, &self.lagrangian, number);
            if rises.outside >= missing {
                visit.fix.state[candidate as usize] = State::In;
                count = count.wrapping_add(1);
            } else if rises.inside >= missing {
                visit.fix.state[candidate as usize] = State::Out;
                count = count.wrapping_add(1);
            }
        }
        count
    }

    /// Relaxes a node and fixes candidates, again where many were fixed.
    fn relax_and_fix(&mut self, matrix: &Matrix, budget: i64, visit: &mut Visit, is_root: bool) {
        for pass in 0..MOST_PASSES {
            self.open(matrix, budget, visit);
            if visit.is_closed {
                return;
            }
            self.relax(matrix, budget, visit, is_root && pass == 0);
            if visit.is_closed {
                return;
            }
            let count = self.fix(visit);
            visit.is_closed = !leave_out_clashing(matrix, &mut visit.fix)
                || pages(matrix, &visit.fix) > budget;
            if visit.is_closed {
                return;
            }
            if count == 0 || (pass > 0 && count < MANY_FIXED) {
                break;
            }
        }
        self.open(matrix, budget, visit);
    }

    /// What the groups of the view have.
    fn group_shares(&self, matrix: &Matrix) -> GroupShares {
        let mut found = GroupShares::BLANK;
        for (number, candidate) in self.view.candidates.iter().enumerate() {
            let group = matrix.groups[*candidate as usize];
            if group != 0 {
                let rises = self.losses.best_rises(&self.view, &self.lagrangian, number);
                found.add(group, self.shares[*candidate as usize], rises.outside);
            }
        }
        found
    }

    /// What a branch on a candidate of a group promises, of which a relaxation takes more than one, in pages.
    fn promise(&self, shares: &GroupShares, group: u8, number: usize) -> f64 {
        let rises = self.losses.best_rises(&self.view, &self.lagrangian, number);
        let inside = shares.inside(group, rises.inside.max(0.0), rises.outside);
        let missing = (self.target() - self.lagrangian.value).max(1.0);
        let rule = at(&RULES, self.rule.saturating_sub(1), RULES[0]);
        rule.pages(inside, rises.outside, missing, self.lagrangian.page)
    }

    /// The candidate of the view, by its number there, on which to branch: the one with the most pages in doubt.
    fn choice(&self, matrix: &Matrix) -> usize {
        let shares = self.group_shares(matrix);
        let mut best = 0;
        let mut most = f64::NEG_INFINITY;
        for (number, candidate) in self.view.candidates.iter().enumerate() {
            let share = self.shares[*candidate as usize];
            let group = matrix.groups[*candidate as usize];
            let excess = shares.excess(group, share);
            let part = if excess > LEAST_PART {
                excess.max(share.min(1.0 - share))
            } else {
                share.min(1.0 - share)
            };
            let mut doubt = if part < LEAST_PART {
                part - 1.0
            } else {
                part * at(self.view.sizes.as_slice(), number, 0.0)
            };
            if excess > LEAST_PART {
                doubt = doubt.max(self.promise(&shares, group, number));
            }
            if doubt > most {
                most = doubt;
                best = number;
            }
        }
        best
    }

    /// Branches at a node; the side to which the share of the branch's candidate rounds.
    fn branch(&mut self, matrix: &Matrix, place: usize, visit: &Visit, number: usize) -> usize {
        let candidate = at(self.view.candidates.as_slice(), number, 0);
        let fixes = sides(matrix, &visit.fix, candidate);
        let first = self.tree.branch(place, candidate, &fixes, visit.bound);
        if self.shares[candidate as usize] >= 0.5 {
            first
        } else {
            first.wrapping_add(1)
        }
    }

    /// Visits a node of the tree. Answers a side of its branch that may be visited next.
    fn visit(&mut self, matrix: &Matrix, budget: i64, place: usize) -> Option<usize> {
        let node = self.tree.nodes.get(place)?;
        let mut visit = Visit {
            fix: node.fix(),
            bound: node.bound,
            is_closed: false,
        };
        self.relax_and_fix(matrix, budget, &mut visit, place == 0);
        if !visit.is_closed {
            let _ = self.evaluate(&mut visit);
        }
        let number = self.choice(matrix);
        let is_closed = visit.is_closed
            || visit.bound >= self.target()
            || number >= self.view.candidates.len();
        self.tree.write(place, &visit.fix, visit.bound, is_closed);
        if is_closed {
            None
        } else {
            Some(self.branch(matrix, place, &visit, number))
        }
    }

    /// Begins at a root, with the cheaper of a greedy configuration and of one that is known from elsewhere.
    pub(crate) fn begin(
        &mut self,
        matrix: &Matrix,
        root: &Fix,
        budget: i64,
        known: Option<&Chosen>,
    ) {
        self.best = self.rounding.begin(matrix, root, budget);
        if let Some(known) = known {
            self.rounding
                .adopt(matrix, root, budget, known, &mut self.best);
        }
        self.tree.begin(root);
        self.root_bound = f64::NEG_INFINITY;
        self.rule = 0;
    }

    /// Rounds the relaxation of a node that was solved last, or takes what is in there where nothing is open; whether that is
    /// cheaper than the incumbent.
    pub(crate) fn round(&mut self, matrix: &Matrix, fix: &Fix, budget: i64) -> bool {
        if self.view.candidates.is_empty() {
            return self.rounding.close(matrix, fix, budget, &mut self.best);
        }
        let node = Shared {
            fix,
            view: &self.view,
            shares: self.relaxation.shares.as_slice(),
            budget,
        };
        self.rounding.round(matrix, &node, false, &mut self.best)
    }

    /// Forces what is open at a node in or out of the incumbent; whether that is cheaper.
    pub(crate) fn exchange(&mut self, matrix: &Matrix, fix: &Fix, budget: i64) -> bool {
        self.rounding.exchange(matrix, fix, budget, &mut self.best)
    }

    /// Searches for the cheapest configuration from where it was begun, with so many visits; whether it comes to its end. Where
    /// the root's relaxation can't be solved, its rounding is taken.
    pub(crate) fn find(&mut self, matrix: &Matrix, budget: i64, visits: usize) -> bool {
        let mut dive = None;
        let mut turns = 0u32;
        let mut is_whole = false;
        for _visit in 0..visits {
            let next = match dive {
                Some(place) => Some(place),
                None => self.tree.least(),
            };
            let Some(place) = next else {
                is_whole = true;
                break;
            };
            if dive.is_none() {
                turns = turns.wrapping_add(1);
            }
            is_whole = self.tree.bound(place) >= self.target();
            if is_whole || self.tree.is_full() {
                break;
            }
            let side = self.visit(matrix, budget, place);
            if self.root_bound == f64::NEG_INFINITY {
                is_whole = true;
                break;
            }
            let is_dive = turns <= FIRST_DIVES || turns % LATER_DIVES == 0;
            dive = if is_dive { side } else { None };
        }
        let target = self.target();
        self.tree.close(target);
        is_whole
    }
}
