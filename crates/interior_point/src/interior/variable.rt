//! Variables that are at least 0, with the slacks of their dual constraints.

/// A variable and its slack, and the steps of both.
#[derive(Clone, Copy)]
pub(crate) struct Variable {
    /// 0 where there is no such variable.
    pub value: f64,
    pub slack: f64,
    pub cost: f64,
    /// The value by the slack.
    pub ratio: f64,
    /// What the dual constraint misses, and that less what complementarity misses by value.
    pub residual: f64,
    pub aim: f64,
    pub step: f64,
    pub slack_step: f64,
}

/// In place of a variable that isn't there.
pub(crate) const NO_VARIABLE: Variable = Variable {
    value: 0.0,
    slack: 1.0,
    cost: 0.0,
    ratio: 0.0,
    residual: 0.0,
    aim: 0.0,
    step: 0.0,
    slack_step: 0.0,
};

/// A direction: the product that each variable and its slack are to have, and whether the product of the steps of the
/// direction before counts.
#[derive(Clone, Copy)]
pub(crate) struct Pass {
    pub center: f64,
    pub is_corrector: bool,
}

/// How far values and slacks can go along a direction: 1 is a whole step.
#[derive(Clone, Copy)]
pub(crate) struct Reach {
    pub primal: f64,
    pub dual: f64,
}

/// As far as there is nothing in the way.
pub(crate) const WHOLE: Reach = Reach {
    primal: 1.0,
    dual: 1.0,
};

/// No step.
pub(crate) const NONE: Reach = Reach {
    primal: 0.0,
    dual: 0.0,
};

impl Variable {
    /// A variable with a slack that isn't too small.
    pub(crate) fn new(value: f64, slack: f64, cost: f64) -> Variable {
        Variable {
            value,
            slack,
            cost,
            ..NO_VARIABLE
        }
    }

    /// Whether there is such a variable.
    pub(crate) fn is_there(&self) -> bool {
        self.value > 0.0
    }

    /// What complementarity misses, by value.
    pub(crate) fn missing(&self, pass: &Pass) -> f64 {
        let steps = if pass.is_corrector {
            self.step * self.slack_step
        } else {
            0.0
        };
        (pass.center - self.value * self.slack - steps) / self.value
    }

    /// Aims where what the dual constraint has of the cost is known; answers what the primal constraints get of it.
    pub(crate) fn aim(&mut self, priced: f64, pass: &Pass) -> f64 {
        self.residual = self.cost - priced - self.slack;
        self.aim = self.residual - self.missing(pass);
        self.ratio * self.aim - self.value
    }

    /// Turns where the dual constraint changes by so much.
    pub(crate) fn turn(&mut self, change: f64, reach: &mut Reach) {
        self.step = self.ratio * (change - self.aim);
        self.slack_step = self.residual - change;
        self.limit(reach);
    }

    /// Limits how far a direction goes.
    pub(crate) fn limit(&self, reach: &mut Reach) {
        if self.step < 0.0 {
            reach.primal = reach.primal.min(-self.value / self.step);
        }
        if self.slack_step < 0.0 {
            reach.dual = reach.dual.min(-self.slack / self.slack_step);
        }
    }

    /// The product of the value and the slack after a part of the step.
    pub(crate) fn product(&self, part: &Reach) -> f64 {
        (self.value + part.primal * self.step) * (self.slack + part.dual * self.slack_step)
    }

    /// Goes a part of the step.
    pub(crate) fn go(&mut self, part: &Reach) {
        self.value += part.primal * self.step;
        self.slack += part.dual * self.slack_step;
    }
}
