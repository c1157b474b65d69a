//! The linear relaxation of a view, by an interior point method, and the best Lagrangian bound that was met on the way.

use crate::interior::Interior;
use crate::interior::variable::{NONE, Reach, WHOLE};
use crate::lagrangian::Lagrangian;
use crate::matrix::Matrix;
use crate::places::append;
use crate::view::View;
use adv_base::NoMemory;
use std::alloc::Global;

/// The most rounds, and the first that is evaluated.
const MOST_ROUNDS: u32 = 40;

const FIRST_EVALUATED: u32 = 4;
/// No more rounds are made where values and slacks have products below this on the average, or where steps are too short.
const LEAST_MEAN: f64 = 1e-13;

const LEAST_STEP: f64 = 0.001;

const SHORT_STEP: f64 = 0.02;

/// What the last solution found.
#[derive(Drop)]
pub struct Relaxation {
    /// The best bound, with its price of a page and its rents by link of the view.
    pub bound: f64,
    pub page: f64,
    pub rents: Vec<f64>,
    /// How much of each candidate of the view the relaxation takes.
    pub shares: Vec<f64>,
    interior: Interior,
    /// The rents that are evaluated.
    present: Vec<f64>,
}

impl Relaxation {
    /// All memory that relaxations of views of a matrix take. Want of memory is the one error.
    pub fn new(alloc: Global, matrix: &Matrix) -> Result<Relaxation, NoMemory> {
        Ok(Relaxation {
            bound: f64::NEG_INFINITY,
            page: 0.0,
            rents: Vec::with_capacity(alloc, matrix.links.len())?,
            shares: Vec::with_capacity(alloc, 256)?,
            interior: Interior::new(alloc, matrix)?,
            present: Vec::with_capacity(alloc, matrix.links.len())?,
        })
    }

    /// Solves the relaxation of a view until the bound is so near to the target, as a part of what is missing; whether the
    /// bound reaches it. The bound is that of the best rents, and minus infinity where none were evaluated.
    pub fn solve(
        &mut self,
        view: &View,
        lagrangian: &mut Lagrangian,
        target: f64,
        tolerance: f64,
    ) -> bool {
        self.bound = f64::NEG_INFINITY;
        self.page = 0.0;
        self.rents.clear();
        self.shares.clear();
        if !self.interior.begin(view) {
            return false;
        }
        let mut reach = WHOLE;
        for round in 0..MOST_ROUNDS {
            let products = self.interior.product(&NONE);
            let mean = products / self.interior.count();
            if round >= FIRST_EVALUATED {
                self.evaluate(view, lagrangian);
                let missing = (target - self.bound).max(0.0);
                let near = products * self.interior.scale < tolerance * missing;
                if self.bound >= target || round > FIRST_EVALUATED && (near || is_stuck(&reach)) {
                    break;
                }
            }
            if !(mean >= LEAST_MEAN) || !self.is_inside() || round + 1 == MOST_ROUNDS {
                break;
            }
            reach = self.interior.advance(view, mean);
        }
        for share in self.interior.shares.as_slice() {
            append(&mut self.shares, share.taken.value);
        }
        self.bound >= target
    }

    /// Whether the point is a number.
    fn is_inside(&self) -> bool {
        let room = &self.interior.knapsack;
        room.value.is_finite() && room.slack.is_finite() && room.slack > 0.0
    }

    /// Evaluates the present rents, and keeps them where they are the best.
    fn evaluate(&mut self, view: &View, lagrangian: &mut Lagrangian) {
        self.present.clear();
        for link in self.interior.links.as_slice() {
            append(
                &mut self.present,
                (link.slack * self.interior.scale).max(0.0),
            );
        }
        lagrangian.evaluate(view, self.present.as_slice());
        if lagrangian.value > self.bound {
            self.bound = lagrangian.value;
            self.page = lagrangian.page;
            self.rents.clear();
            for rent in self.present.as_slice() {
                append(&mut self.rents, *rent);
            }
        }
    }
}

/// Whether steps are too short to go on.
fn is_stuck(reach: &Reach) -> bool {
    let shortest = reach.primal.min(reach.dual);
    shortest < LEAST_STEP || reach.primal.max(reach.dual) < SHORT_STEP
}
