//! Sets that are made for a node of the plan: of its relaxation, lifted to serve elsewhere too.

use crate::finding::Finder;
use crate::ledger::Ledger;
use crate::planner::{Planner, Task};
use crate::rounding::view_node;
use interior_point::{LARGEST, Matrix, float_of, put};
use std::num::{nearest_i64_to_f64, saturating_f64_to_i64};

/// How near the relaxation of a set comes to its optimum, as a part of what is missing.
const TOLERANCE: f64 = 0.001;

impl Planner {
    /// Makes a set of the relaxation of the node, and answers its place.
    pub(crate) fn add_own(&mut self, task: &Task<'_>, finder: &mut Finder) -> usize {
        let set = self.count;
        if set >= self.ledgers.len() {
            return 0;
        }
        let cost = float_of(self.cost);
        let fix = self.path.settled();
        let node = view_node(&fix, task.budget);
        finder.view.open(task.matrix, &node, cost);
        let ledger = &mut self.ledgers[set];
        for rent in ledger.rents.iter_mut() {
            *rent = 0;
        }
        ledger.shares = [0.0; 256];
        let mut page = 0;
        if !finder.view.candidates.is_empty() {
            let _ = finder.relaxation.solve(
                &finder.view,
                &mut finder.lagrangian,
                cost + 1.0,
                TOLERANCE,
            );
            write_relaxation(task.matrix, finder, ledger);
            page = whole(finder.relaxation.page * 65536.0) as i128;
        }
        let rents = ledger.rents.as_mut_slice();
        self.lifting.lift(task.matrix, &fix, rents);
        if task.rounds && finder.round(task.matrix, &fix, task.budget) {
            self.aim(finder.best.cost);
        }
        self.add(task, page);
        self.hint = set.min(self.count.saturating_sub(1));
        self.hint
    }
}

/// The whole number nearest to a float, at least 0.
fn whole(number: f64) -> i64 {
    saturating_f64_to_i64((number + 0.5).floor()).clamp(0, LARGEST)
}

/// Writes rents and shares of a relaxation.
fn write_relaxation(matrix: &Matrix, finder: &Finder, ledger: &mut Ledger) {
    let rents = finder.relaxation.rents.iter();
    for (link, rent) in finder.view.links.iter().zip(rents) {
        let place = *link as usize;
        if place < matrix.links.len() {
            let part = matrix.links[place].part as usize;
            if part < matrix.parts.len() {
                let weight = nearest_i64_to_f64(matrix.parts[part].weight);
                put(ledger.rents.as_mut_slice(), place, whole(*rent / weight));
            }
        }
    }
    let shares = finder.relaxation.shares.iter();
    for (candidate, share) in finder.view.candidates.iter().zip(shares) {
        ledger.shares[*candidate as usize] = *share;
    }
}
