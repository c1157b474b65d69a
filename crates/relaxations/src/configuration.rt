//! Configurations with what they cost in whole numbers, and moves of one candidate or a few.

use crate::clashing::Members;
use adv_base::NoMemory;
use bip_model::{Fix, State};
use interior_point::{Matrix, at, float_of, put};
use std::alloc::Global;
use std::num::nearest_i64_to_f64;

/// Which candidates are meant, counted from 0.
pub(crate) type Chosen = [bool; 256];

/// A configuration that was found, and what it costs.
#[derive(Clone, Copy)]
pub(crate) struct Incumbent {
    pub on: Chosen,
    pub cost: i128,
}

impl Incumbent {
    /// Takes a configuration in its place that is cheaper; whether it is.
    pub(crate) fn improve(&mut self, from: &Configuration) -> bool {
        let is_cheaper = from.cost < self.cost;
        if is_cheaper {
            self.on = from.on;
            self.cost = from.cost;
        }
        is_cheaper
    }
}

/// What a part costs in all at so much a time.
fn weighted(matrix: &Matrix, part: usize, cost: i64) -> i128 {
    if part < matrix.parts.len() {
        (cost as i128).wrapping_mul(matrix.parts[part].weight as i128)
    } else {
        0
    }
}

/// A configuration: what it has, what it costs and which pages it leaves; of what it has, what has to stay, and how many are of
/// each group. `costs` has what each part costs, and `changes` by what the whole would change if a candidate came or went,
/// where that is known.
#[derive(Drop)]
pub(crate) struct Configuration {
    pub on: Chosen,
    pub cost: i128,
    pub left: i64,
    stays: Chosen,
    members: Members,
    costs: Vec<i64>,
    changes: [Option<f64>; 256],
}

impl Configuration {
    /// All memory that configurations of a matrix take. Want of memory is the one error.
    pub(crate) fn new(alloc: Global, matrix: &Matrix) -> Result<Configuration, NoMemory> {
        Ok(Configuration {
            on: [false; 256],
            cost: 0,
            left: 0,
            stays: [false; 256],
            members: Members::BLANK,
            costs: vec![in alloc; 0; matrix.parts.len()]?,
            changes: [None; 256],
        })
    }

    /// Begins with what is in at a root, which stays.
    pub(crate) fn begin(&mut self, matrix: &Matrix, root: &Fix, budget: i64) {
        for a in 0..256 {
            self.stays[a] = root.state[a] == State::In;
        }
        let on = self.stays;
        self.take(matrix, &on, budget);
    }

    /// Becomes the configuration of these candidates.
    pub(crate) fn take(&mut self, matrix: &Matrix, on: &Chosen, budget: i64) {
        self.on = *on;
        self.cost = matrix.kept;
        self.left = budget;
        self.changes = [None; 256];
        self.members = Members::BLANK;
        for a in 0..256 {
            if on[a] {
                self.cost = self.cost.wrapping_add(matrix.upkeep[a]);
                self.left = self.left.wrapping_sub(matrix.sizes[a]);
                self.members.enter(matrix.groups[a]);
            }
        }
        for part in 0..matrix.parts.len() {
            let cost = matrix.part_cost(part, on);
            put(self.costs.as_mut_slice(), part, cost);
            self.cost = self.cost.wrapping_add(weighted(matrix, part, cost));
        }
    }

    /// Becomes another configuration.
    pub(crate) fn copy(&mut self, from: &Configuration) {
        self.on = from.on;
        self.cost = from.cost;
        self.left = from.left;
        self.stays = from.stays;
        self.members = from.members;
        self.changes = from.changes;
        for (own, other) in self.costs.iter_mut().zip(from.costs.iter()) {
            *own = *other;
        }
    }

    /// Whether a candidate clashes with one that the configuration has.
    fn clashes(&self, matrix: &Matrix, candidate: usize) -> bool {
        self.members.has(at(&matrix.groups, candidate, 0))
    }

    /// By how much the cost would change if a candidate came or went.
    fn change(&mut self, matrix: &Matrix, candidate: u8) -> f64 {
        let a = candidate as usize;
        if let Some(known) = self.changes[a] {
            return known;
        }
        let was = self.on[a];
        self.on[a] = !was;
        let mut sum = 0i128;
        for place in matrix.touches[a].of(matrix.touched.as_slice()) {
            let part = *place as usize;
            let cost = matrix.part_cost(part, &self.on);
            let more = cost.wrapping_sub(at(self.costs.as_slice(), part, 0));
            sum = sum.wrapping_add(weighted(matrix, part, more));
        }
        self.on[a] = was;
        let upkeep = matrix.upkeep[a];
        let sum = float_of(if was {
            sum.wrapping_sub(upkeep)
        } else {
            sum.wrapping_add(upkeep)
        });
        self.changes[a] = Some(sum);
        sum
    }

    /// Forgets what the candidates of a part would change.
    fn forget(&mut self, matrix: &Matrix, part: usize) {
        if part < matrix.parts.len() {
            for link in matrix.parts[part].links.of(matrix.links.as_slice()) {
                self.changes[link.candidate as usize] = None;
            }
        }
    }

    /// A candidate comes or goes.
    fn flip(&mut self, matrix: &Matrix, candidate: u8) {
        let a = candidate as usize;
        self.on[a] = !self.on[a];
        let (upkeep, size) = (matrix.upkeep[a], matrix.sizes[a]);
        if self.on[a] {
            self.cost = self.cost.wrapping_add(upkeep);
            self.left = self.left.wrapping_sub(size);
            self.members.enter(matrix.groups[a]);
        } else {
            self.cost = self.cost.wrapping_sub(upkeep);
            self.left = self.left.wrapping_add(size);
            self.members.leave(matrix.groups[a]);
        }
        self.changes[a] = None;
        for place in matrix.touches[a].of(matrix.touched.as_slice()) {
            let part = *place as usize;
            let cost = matrix.part_cost(part, &self.on);
            let more = cost.wrapping_sub(at(self.costs.as_slice(), part, 0));
            self.cost = self.cost.wrapping_add(weighted(matrix, part, more));
            put(self.costs.as_mut_slice(), part, cost);
            self.forget(matrix, part);
        }
    }

    /// The allowed candidate that fits, clashes with none and saves most for each page.
    fn best_addition(&mut self, matrix: &Matrix, allowed: &Chosen) -> Option<u8> {
        let mut best = None;
        let mut least = 0.0;
        for a in 0..matrix.count.min(256) {
            let size = matrix.sizes[a];
            if allowed[a] && !self.on[a] && size <= self.left && !self.clashes(matrix, a) {
                let change = self.change(matrix, a as u8);
                let rate = change / (nearest_i64_to_f64(size) + 1.0);
                if rate < least {
                    least = rate;
                    best = Some(a as u8);
                }
            }
        }
        best
    }

    /// Adds allowed candidates, always the one that saves most for each page.
    pub(crate) fn fill(&mut self, matrix: &Matrix, allowed: &Chosen) {
        for _turn in 0..256 {
            match self.best_addition(matrix, allowed) {
                Some(candidate) => self.flip(matrix, candidate),
                None => return,
            }
        }
    }

    /// Drops candidates that save nothing.
    pub(crate) fn prune(&mut self, matrix: &Matrix) {
        for _turn in 0..256 {
            let mut is_done = true;
            for a in 0..matrix.count.min(256) {
                if self.on[a] && !self.stays[a] && self.change(matrix, a as u8) <= 0.0 {
                    self.flip(matrix, a as u8);
                    is_done = false;
                }
            }
            if is_done {
                return;
            }
        }
    }

    /// The candidate that loses least for each page that is missing, but for one.
    fn least_loss(&mut self, matrix: &Matrix, keep: usize) -> Option<u8> {
        let mut best = None;
        let mut least = f64::INFINITY;
        let missing = 0i64.wrapping_sub(self.left);
        for a in 0..matrix.count.min(256) {
            if self.on[a] && !self.stays[a] && a != keep {
                let pages = nearest_i64_to_f64(matrix.sizes[a].min(missing)) + 1.0;
                let rate = self.change(matrix, a as u8) / pages;
                if rate < least {
                    least = rate;
                    best = Some(a as u8);
                }
            }
        }
        best
    }

    /// Drops what loses least for each page until the rest fits, but for one.
    fn repair(&mut self, matrix: &Matrix, keep: usize) {
        for _turn in 0..256 {
            if self.left >= 0 {
                return;
            }
            match self.least_loss(matrix, keep) {
                Some(candidate) => self.flip(matrix, candidate),
                None => return,
            }
        }
    }

    /// Drops what loses least for each page until the rest fits, and goes on from there with the allowed ones.
    pub(crate) fn refit(&mut self, matrix: &Matrix, allowed: &Chosen) {
        self.repair(matrix, usize::MAX);
        self.fill(matrix, allowed);
        self.prune(matrix);
    }

    /// Drops what clashes with a candidate that comes in.
    fn give_way(&mut self, matrix: &Matrix, candidate: usize) {
        if self.clashes(matrix, candidate) {
            for a in 0..256 {
                if self.on[a] && matrix.clash(a, candidate) {
                    self.flip(matrix, a as u8);
                }
            }
        }
    }

    /// Forces a candidate in or out, and goes on from there with the allowed ones.
    fn force(&mut self, matrix: &Matrix, candidate: u8, allowed: &Chosen) {
        let was = self.on[candidate as usize];
        if !was {
            self.give_way(matrix, candidate as usize);
        }
        self.flip(matrix, candidate);
        let mut others = *allowed;
        if was {
            others[candidate as usize] = false;
        } else {
            self.repair(matrix, candidate as usize);
        }
        self.fill(matrix, &others);
        self.prune(matrix);
    }

    /// Forces each allowed candidate in or out in turn, and keeps what is cheaper, until nothing is, with at most so many
    /// trials.
    pub(crate) fn polish(
        &mut self,
        matrix: &Matrix,
        allowed: &Chosen,
        most: usize,
        before: &mut Configuration,
    ) {
        self.prune(matrix);
        self.fill(matrix, allowed);
        let mut trials = 0usize;
        for _round in 0..most {
            let cost = self.cost;
            for a in 0..matrix.count.min(256) {
                if (!allowed[a] && !self.on[a]) || self.stays[a] {
                    continue;
                }
                if trials >= most {
                    return;
                }
                trials = trials.wrapping_add(1);
                before.copy(self);
                self.force(matrix, a as u8, allowed);
                if self.left < 0 || self.cost >= before.cost {
                    self.copy(before);
                }
            }
            if self.cost >= cost {
                return;
            }
        }
    }
}
