//! The way from a root to a node, one candidate after the other.

use crate::clashing::Members;
use crate::ledger::Each;
use adv_base::NoMemory;
use bip_model::{Fix, State};
use interior_point::{Matrix, NO_PLACES, Places, at};
use std::alloc::Global;

/// The most steps: each takes a candidate that is open.
pub(crate) const MOST_STEPS: usize = 256;

/// A step: the candidate that comes in or is left out, and where those stand that are open no more.
#[derive(Clone, Copy)]
pub(crate) struct PathStep {
    pub candidate: u8,
    pub is_inside: bool,
    pub gone: Places,
}

/// No step.
const NO_STEP: PathStep = PathStep {
    candidate: 0,
    is_inside: false,
    gone: NO_PLACES,
};

/// A node: what is in there, and what is free and fits into the pages that are left; all else is out. `root` is the node where
/// the way began, and `gone` has the candidates that ceased to be open.
#[derive(Drop)]
pub(crate) struct Path {
    pub fix: Fix,
    pub room: i64,
    pub root: Fix,
    pub members: Members,
    groups: [u8; 256],
    steps: Vec<PathStep>,
    gone: Vec<u8>,
}

impl Path {
    /// All memory of a path. Want of memory is the one error.
    pub(crate) fn new(alloc: Global) -> Result<Path, NoMemory> {
        Ok(Path {
            fix: Fix::free(),
            room: 0,
            root: Fix::free(),
            members: Members::BLANK,
            groups: [0; 256],
            steps: Vec::with_capacity(alloc, MOST_STEPS)?,
            gone: Vec::with_capacity(alloc, MOST_STEPS)?,
        })
    }

    /// Begins at a root.
    pub(crate) fn begin(&mut self, matrix: &Matrix, root: &Fix, budget: i64) {
        self.steps.clear();
        self.gone.clear();
        self.fix = *root;
        self.room = budget;
        self.groups = matrix.groups;
        self.members = Members::BLANK;
        for a in 0..256 {
            match root.state[a] {
                State::In => {
                    self.room = self.room.saturating_sub(matrix.sizes[a]);
                    self.members.enter(matrix.groups[a]);
                }
                State::Free | State::Out => {}
            }
        }
        for a in 0..256 {
            if self.is_open(a) && (a >= matrix.count || matrix.sizes[a] > self.room) {
                self.fix.state[a] = State::Out;
            }
        }
        self.root = self.fix;
    }

    /// Whether a candidate is open.
    pub(crate) fn is_open(&self, candidate: usize) -> bool {
        candidate < 256 && self.fix.state[candidate] == State::Free
    }

    /// The group of a candidate.
    pub(crate) fn group(&self, candidate: usize) -> u8 {
        at(&self.groups, candidate, 0)
    }

    /// Whether a candidate that isn't in clashes with one that is.
    pub(crate) fn is_clash(&self, candidate: usize) -> bool {
        self.members.has(self.group(candidate))
    }

    /// Whether a candidate may come in.
    pub(crate) fn is_choice(&self, candidate: usize) -> bool {
        self.is_open(candidate) && !self.is_clash(candidate)
    }

    /// The node without what clashes with what is in.
    pub(crate) fn settled(&self) -> Fix {
        let mut fix = self.fix;
        for a in 0..256 {
            if fix.state[a] == State::Free && self.is_clash(a) {
                fix.state[a] = State::Out;
            }
        }
        fix
    }

    /// What open candidates that clash take off a value, where each costs so much.
    pub(crate) fn lost(&self, terms: &Each) -> i128 {
        let mut lost = 0i128;
        if self.members.is_empty() {
            return lost;
        }
        for a in 0..256 {
            if self.is_clash(a) && self.is_open(a) {
                lost = lost.wrapping_sub(terms[a].min(0));
            }
        }
        lost
    }

    /// Whether a candidate is in.
    pub(crate) fn is_in(&self, candidate: usize) -> bool {
        candidate < 256 && self.fix.state[candidate] == State::In
    }

    /// How many steps there are.
    pub(crate) fn depth(&self) -> usize {
        self.steps.len()
    }

    /// The step of a number, from 0.
    pub(crate) fn step(&self, number: usize) -> PathStep {
        if number < self.steps.len() {
            self.steps[number]
        } else {
            NO_STEP
        }
    }

    /// The candidates that are open no more after a step.
    pub(crate) fn gone(&self, step: &PathStep) -> &[u8] {
        step.gone.of(self.gone.as_slice())
    }

    /// Leaves a candidate out.
    fn drop_out(&mut self, candidate: usize) {
        if candidate < 256 {
            self.fix.state[candidate] = State::Out;
            let _ = self.gone.push((candidate & 255) as u8);
        }
    }

    /// Takes an open candidate in, or leaves it out.
    pub(crate) fn go(&mut self, matrix: &Matrix, candidate: usize, is_inside: bool) {
        let from = self.gone.len();
        if !is_inside {
            self.drop_out(candidate);
        } else if candidate < 256 {
            self.fix.state[candidate] = State::In;
            self.room = self.room.saturating_sub(matrix.sizes[candidate]);
            self.members.enter(at(&self.groups, candidate, 0));
            for a in 0..matrix.count.min(256) {
                if matrix.sizes[a] > self.room && self.is_open(a) {
                    self.drop_out(a);
                }
            }
        }
        let to = self.gone.len();
        let _ = self.steps.push(PathStep {
            candidate: (candidate & 255) as u8,
            is_inside,
            gone: Places { from, to },
        });
    }

    /// Goes back the last step.
    fn go_back_once(&mut self, matrix: &Matrix) {
        if let Some(step) = self.steps.pop() {
            for a in step.gone.of(self.gone.as_slice()) {
                self.fix.state[*a as usize] = State::Free;
            }
            self.gone.truncate(step.gone.from);
            if step.is_inside {
                let candidate = step.candidate as usize;
                self.fix.state[candidate] = State::Free;
                self.room = self.room.saturating_add(matrix.sizes[candidate]);
                self.members.leave(at(&self.groups, candidate, 0));
            }
        }
    }

    /// Goes back to so many steps.
    pub(crate) fn go_back(&mut self, matrix: &Matrix, depth: usize) {
        for _step in depth..self.steps.len() {
            self.go_back_once(matrix);
        }
    }
}
