//! The share of a candidate that is taken, from 0 to 1.

use crate::interior::variable::{NO_VARIABLE, Pass, Reach, Variable};

/// A share: what is taken and what is left, with the slack of each.
#[derive(Clone, Copy)]
pub(crate) struct Share {
    pub taken: Variable,
    pub left: Variable,
    pub cost: f64,
    pub size: f64,
    /// What the share steps by where its dual constraint changes, and where the change would be none.
    pub ratio: f64,
    pub aim: f64,
    /// What its dual constraint has, or changes by.
    pub priced: f64,
}

impl Share {
    pub(crate) fn new(value: f64, cost: f64, size: f64) -> Share {
        Share {
            taken: Variable {
                value,
                ..NO_VARIABLE
            },
            left: Variable {
                value: 1.0 - value,
                ..NO_VARIABLE
            },
            cost,
            size,
            ratio: 0.0,
            aim: 0.0,
            priced: 0.0,
        }
    }

    /// What the slacks weigh on the share.
    pub(crate) fn weight(&self) -> f64 {
        self.taken.slack / self.taken.value + self.left.slack / self.left.value
    }

    /// Aims; answers what the primal constraints get of it.
    pub(crate) fn aim(&mut self, pass: &Pass) -> f64 {
        let residual = self.priced - self.taken.slack + self.left.slack;
        self.aim = residual - self.taken.missing(pass) + self.left.missing(pass);
        self.ratio * self.aim - self.taken.value
    }

    /// Turns.
    pub(crate) fn turn(&mut self, pass: &Pass, reach: &mut Reach) {
        let step = self.ratio * (self.priced - self.aim);
        let missing = self.taken.missing(pass);
        let missing_left = self.left.missing(pass);
        self.taken.step = step;
        self.taken.slack_step = missing - self.taken.slack / self.taken.value * step;
        self.left.step = -step;
        self.left.slack_step = missing_left + self.left.slack / self.left.value * step;
        self.taken.limit(reach);
        self.left.limit(reach);
    }

    pub(crate) fn product(&self, part: &Reach) -> f64 {
        self.taken.product(part) + self.left.product(part)
    }

    pub(crate) fn go(&mut self, part: &Reach) {
        self.taken.go(part);
        self.left.go(part);
    }
}
