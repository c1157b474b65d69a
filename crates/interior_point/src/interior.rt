//! A primal and dual interior point method for the linear relaxation of a view: Mehrotra's predictor and corrector. In each
//! round the templates, orders and links are eliminated part by part, so that a matrix with a row for each candidate is left.
//!
//! The relaxation: a part's templates and what it costs without rows have the sum 1; the offers and the base of a row have
//! the sum of the templates that need it; a link's offers are at most the share of its candidate; the shares fill the room at
//! most.

mod direction;
mod elimination;
pub(crate) mod share;
mod start;
pub(crate) mod variable;

use crate::cholesky::triangle;
use crate::interior::share::Share;
use crate::interior::variable::{NO_VARIABLE, Pass, Reach, Variable};
use crate::matrix::Matrix;
use crate::places::{Places, append, refill};
use crate::view::View;
use adv_base::NoMemory;
use std::alloc::Global;
use std::num::nearest_usize_to_f64;

/// The most numbers that the triangles of all parts, or the crossings of one, may have: a relaxation with more isn't solved.
const MOST_NUMBERS: usize = 2_097_152;
/// The part of the way to the border that a step goes.
const NEAR: f64 = 0.99;

/// What a solution of a system has, or its right side: a number for each part, row and link, and for the room.
#[derive(Drop)]
pub(crate) struct Duals {
    pub parts: Vec<f64>,
    pub rows: Vec<f64>,
    pub links: Vec<f64>,
    pub room: f64,
}

/// A point between the borders, and what the next one is found by. Costs are divided by `scale`, sizes by the room.
#[derive(Drop)]
pub(crate) struct Interior {
    pub scale: f64,
    room: f64,
    pub offers: Vec<Variable>,
    bases: Vec<Variable>,
    templates: Vec<Variable>,
    /// What each part costs without rows.
    fixed: Vec<Variable>,
    /// What each link leaves; its slack is the rent.
    pub links: Vec<Variable>,
    /// What the room leaves; its slack is the price of a page.
    pub knapsack: Variable,
    pub shares: Vec<Share>,
    /// The dual values, of which those of links and of the room stand as slacks, the right sides and the steps.
    part_values: Vec<f64>,
    row_values: Vec<f64>,
    sides: Duals,
    steps: Duals,
    /// The inverses of the diagonal of links.
    inverses: Vec<f64>,
    /// The triangle of each part, behind each other, and where each begins.
    triangles: Vec<f64>,
    starts: Vec<usize>,
    /// What a link of the part that is eliminated has in each row, and from where to where.
    crossings: Vec<f64>,
    spans: Vec<Places>,
    /// The triangle of the candidates, and a right side of it; and a right side of a part.
    master: Vec<f64>,
    solution: Vec<f64>,
    local: Vec<f64>,
    /// What the triangle of the candidates, without the room, makes of the sizes, and what the room then resists with.
    spread: Vec<f64>,
    stiffness: f64,
}

/// How many numbers the triangles of all parts and the crossings of one have at most, and how many rows and links a part.
#[derive(Clone, Copy)]
struct Most {
    triangles: usize,
    crossings: usize,
    rows: usize,
    links: usize,
}

impl Most {
    fn of(matrix: &Matrix) -> Most {
        let mut most = Most {
            triangles: 0,
            crossings: 0,
            rows: 0,
            links: 0,
        };
        for part in matrix.parts.as_slice() {
            let rows = part.rows.count().saturating_add(1);
            let links = part.links.count();
            most.triangles = most.triangles.saturating_add(triangle(rows));
            most.crossings = most.crossings.max(rows.saturating_mul(links));
            most.rows = most.rows.max(rows);
            most.links = most.links.max(links);
        }
        most
    }
}

impl Duals {
    fn new(alloc: Global, matrix: &Matrix) -> Result<Duals, NoMemory> {
        Ok(Duals {
            parts: Vec::with_capacity(alloc, matrix.parts.len())?,
            rows: Vec::with_capacity(alloc, matrix.rows.len())?,
            links: Vec::with_capacity(alloc, matrix.links.len())?,
            room: 0.0,
        })
    }

    /// Zeros for a view.
    fn reset(&mut self, view: &View) {
        refill(&mut self.parts, view.parts.len(), 0.0);
        refill(&mut self.rows, view.rows.len(), 0.0);
        refill(&mut self.links, view.links.len(), 0.0);
        self.room = 0.0;
    }
}

impl Interior {
    /// All memory that the relaxations of a matrix take. Want of memory is the one error.
    pub(crate) fn new(alloc: Global, matrix: &Matrix) -> Result<Interior, NoMemory> {
        let most = Most::of(matrix);
        Ok(Interior {
            scale: 1.0,
            room: 0.0,
            offers: Vec::with_capacity(alloc, matrix.offers.len())?,
            bases: Vec::with_capacity(alloc, matrix.rows.len())?,
            templates: Vec::with_capacity(alloc, matrix.templates.len())?,
            fixed: Vec::with_capacity(alloc, matrix.parts.len())?,
            links: Vec::with_capacity(alloc, matrix.links.len())?,
            knapsack: NO_VARIABLE,
            shares: Vec::with_capacity(alloc, 256)?,
            part_values: Vec::with_capacity(alloc, matrix.parts.len())?,
            row_values: Vec::with_capacity(alloc, matrix.rows.len())?,
            sides: Duals::new(alloc, matrix)?,
            steps: Duals::new(alloc, matrix)?,
            inverses: Vec::with_capacity(alloc, matrix.links.len())?,
            triangles: Vec::with_capacity(alloc, most.triangles.min(MOST_NUMBERS))?,
            starts: Vec::with_capacity(alloc, matrix.parts.len())?,
            crossings: Vec::with_capacity(alloc, most.crossings.min(MOST_NUMBERS))?,
            spans: Vec::with_capacity(alloc, most.links)?,
            master: Vec::with_capacity(alloc, 32_896)?,
            solution: Vec::with_capacity(alloc, 256)?,
            local: Vec::with_capacity(alloc, most.rows)?,
            spread: Vec::with_capacity(alloc, 256)?,
            stiffness: 1.0,
        })
    }

    /// Makes room for the triangles of a view, and notes where they begin; whether there is as much room.
    fn measure(&mut self, view: &View) -> bool {
        self.starts.clear();
        let mut numbers = 0usize;
        for part in view.parts.as_slice() {
            append(&mut self.starts, numbers);
            let rows = part.rows.count().saturating_add(1);
            numbers = numbers.saturating_add(triangle(rows));
            if numbers > MOST_NUMBERS || rows.saturating_mul(part.links.count()) > MOST_NUMBERS {
                return false;
            }
        }
        refill(&mut self.triangles, numbers, 0.0);
        true
    }

    /// The sum of the products of values and slacks after a part of the step.
    pub(crate) fn product(&self, part: &Reach) -> f64 {
        let mut sum = self.knapsack.product(part);
        let lists = [
            &self.offers,
            &self.bases,
            &self.templates,
            &self.fixed,
            &self.links,
        ];
        for list in lists {
            for variable in list.as_slice() {
                sum += variable.product(part);
            }
        }
        for share in self.shares.as_slice() {
            sum += share.product(part);
        }
        sum
    }

    /// How many variables there are.
    pub(crate) fn count(&self) -> f64 {
        let mut count = 1usize.saturating_add(self.shares.len().saturating_mul(2));
        for list in [
            &self.offers,
            &self.bases,
            &self.templates,
            &self.fixed,
            &self.links,
        ] {
            count = count.saturating_add(list.len());
        }
        nearest_usize_to_f64(count)
    }

    /// Goes a part of the step.
    fn go(&mut self, part: &Reach) {
        self.knapsack.go(part);
        for variable in self.offers.as_mut_slice() {
            variable.go(part);
        }
        for variable in self.bases.as_mut_slice() {
            variable.go(part);
        }
        for variable in self.templates.as_mut_slice() {
            variable.go(part);
        }
        for variable in self.fixed.as_mut_slice() {
            variable.go(part);
        }
        for variable in self.links.as_mut_slice() {
            variable.go(part);
        }
        for share in self.shares.as_mut_slice() {
            share.go(part);
        }
        for (value, step) in self
            .part_values
            .as_mut_slice()
            .iter_mut()
            .zip(self.steps.parts.as_slice())
        {
            *value += part.dual * *step;
        }
        for (value, step) in self
            .row_values
            .as_mut_slice()
            .iter_mut()
            .zip(self.steps.rows.as_slice())
        {
            *value += part.dual * *step;
        }
    }

    /// Goes to the next point, where the products are so much on the average; answers how far the steps went.
    pub(crate) fn advance(&mut self, view: &View, mean: f64) -> Reach {
        self.eliminate(view);
        let foretold = self.direct(
            view,
            &Pass {
                center: 0.0,
                is_corrector: false,
            },
        );
        let part = self.product(&foretold) / self.count() / mean;
        let cube = (part.max(0.0) * part.max(0.0) * part.max(0.0))
            .max(1e-6)
            .min(0.9);
        let center = cube * mean;
        let reach = self.direct(
            view,
            &Pass {
                center,
                is_corrector: true,
            },
        );
        let reach = Reach {
            primal: (NEAR * reach.primal).min(1.0),
            dual: (NEAR * reach.dual).min(1.0),
        };
        self.go(&reach);
        reach
    }
}
