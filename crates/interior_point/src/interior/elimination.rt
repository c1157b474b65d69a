//! Eliminates all but the candidates: a triangle for each part, and one for the candidates.

use crate::cholesky::{dot, entry, factor, solve, solve_transposed, triangle};
use crate::interior::Interior;
use crate::interior::variable::{NO_VARIABLE, Variable};
use crate::places::{NO_PLACES, Places, add, append, at, put, refill};
use crate::view::{View, ViewPart};

/// Added to the diagonals, so that rounding leaves pivots.
const LEAST_WEIGHT: f64 = 1e-14;

/// Sets the ratios.
fn set_ratios(variables: &mut [Variable]) {
    for variable in variables {
        variable.ratio = variable.value / variable.slack;
    }
}

/// The triangle of a part: the part itself has its first row, and the rows of the view, from a place on, have the others.
#[derive(Drop)]
struct Block<'a> {
    first: usize,
    rows: usize,
    triangle: &'a mut [f64],
}

impl Block<'_> {
    /// The row of the triangle that a row of the view has.
    fn row(&self, place: usize) -> usize {
        place.wrapping_sub(self.first).wrapping_add(1)
    }

    /// Adds to the diagonal.
    fn add_weight(&mut self, row: usize, weight: f64) {
        add(self.triangle, entry(self.rows, row, row), weight);
    }

    /// Adds what a template with a ratio has in common with itself.
    fn add_template(&mut self, needs: &[u32], ratio: f64) {
        add(self.triangle, 0, ratio);
        for need in needs {
            let row = self.row(*need as usize);
            add(self.triangle, row, -ratio);
            for other in needs {
                let column = self.row(*other as usize);
                if row <= column {
                    add(self.triangle, entry(self.rows, row, column), ratio);
                }
            }
        }
    }

    /// Takes off what goes through a link, by the inverse of its diagonal.
    fn subtract(&mut self, crossing: &[f64], span: Places, inverse: f64) {
        for row in span.from..span.to.min(crossing.len()) {
            let times = crossing[row] * inverse;
            let start = entry(self.rows, row, row);
            let to = start.saturating_add(span.to.saturating_sub(row));
            let entries = Places { from: start, to }.of_mut(self.triangle);
            for (entry, other) in entries.iter_mut().zip(&crossing[row..]) {
                *entry -= times * *other;
            }
        }
    }

    /// Adds a little to the diagonal.
    fn steady(&mut self) {
        for row in 0..self.rows {
            let place = entry(self.rows, row, row);
            let pivot = at(self.triangle, place, 0.0);
            self.add_weight(row, 1e-13 + pivot.abs() * 1e-12);
        }
    }
}

impl Interior {
    /// Eliminates at the present point.
    pub(crate) fn eliminate(&mut self, view: &View) {
        self.set_out(view);
        let candidates = view.candidates.len().min(256);
        refill(&mut self.master, triangle(candidates), 0.0);
        for (place, part) in view.parts.as_slice().iter().enumerate() {
            self.eliminate_part(view, place, part);
        }
        self.finish(candidates);
    }

    /// Sets the ratios and the inverses of the diagonal of links.
    fn set_out(&mut self, view: &View) {
        set_ratios(self.offers.as_mut_slice());
        set_ratios(self.bases.as_mut_slice());
        set_ratios(self.templates.as_mut_slice());
        set_ratios(self.fixed.as_mut_slice());
        set_ratios(self.links.as_mut_slice());
        self.knapsack.ratio = self.knapsack.value / self.knapsack.slack;
        let inverses = self.inverses.as_mut_slice();
        for (inverse, link) in inverses.iter_mut().zip(self.links.as_slice()) {
            *inverse = link.ratio + LEAST_WEIGHT;
        }
        for (offer, variable) in view.offers.as_slice().iter().zip(self.offers.as_slice()) {
            add(inverses, offer.link as usize, variable.ratio);
        }
        for inverse in inverses {
            *inverse = 1.0 / *inverse;
        }
        for share in self.shares.as_mut_slice() {
            share.ratio = 1.0 / share.weight();
        }
    }

    /// Eliminates a part.
    fn eliminate_part(&mut self, view: &View, place: usize, part: &ViewPart) {
        let rows = part.rows.count().saturating_add(1);
        let from = at(self.starts.as_slice(), place, 0);
        let to = from.saturating_add(triangle(rows));
        let mut block = Block {
            first: part.rows.from,
            rows,
            triangle: Places { from, to }.of_mut(self.triangles.as_mut_slice()),
        };
        block.triangle.fill(0.0);
        block.add_weight(0, at(self.fixed.as_slice(), place, NO_VARIABLE).ratio);
        let templates = part.templates.of(view.templates.as_slice());
        let variables = part.templates.of(self.templates.as_slice());
        for (variable, template) in variables.iter().zip(templates) {
            block.add_template(template.needs.of(view.needs.as_slice()), variable.ratio);
        }
        for place in part.rows.from..part.rows.to {
            let mut weight = at(self.bases.as_slice(), place, NO_VARIABLE).ratio;
            for variable in view.offers_of(place).of(self.offers.as_slice()) {
                weight += variable.ratio;
            }
            block.add_weight(block.row(place), weight);
        }
        self.cross(view, part);
        self.take_links_off(part, rows, Places { from, to });
        self.add_part(view, part, rows);
    }

    /// Takes off what goes through the links of a part, factors its triangle, and solves with it what the links have.
    fn take_links_off(&mut self, part: &ViewPart, rows: usize, places: Places) {
        let mut block = Block {
            first: part.rows.from,
            rows,
            triangle: places.of_mut(self.triangles.as_mut_slice()),
        };
        let spans = self.spans.as_slice();
        let inverses = part.links.of(self.inverses.as_slice());
        let crossings = self.crossings.as_mut_slice();
        let lines = crossings.chunks_exact(rows.max(1));
        for ((crossing, span), inverse) in lines.zip(spans).zip(inverses) {
            block.subtract(crossing, *span, *inverse);
        }
        block.steady();
        factor(block.triangle, rows);
        let lines = crossings.chunks_exact_mut(rows.max(1));
        for ((crossing, span), inverse) in lines.zip(spans).zip(inverses) {
            for number in span.of_mut(crossing) {
                *number *= *inverse;
            }
            solve_transposed(block.triangle, span.from, crossing);
        }
    }

    /// Writes what the links of a part have in each row, and from where to where.
    fn cross(&mut self, view: &View, part: &ViewPart) {
        let rows = part.rows.count().saturating_add(1);
        let links = part.links.count();
        refill(&mut self.crossings, rows.saturating_mul(links), 0.0);
        refill(&mut self.spans, links, NO_PLACES);
        for (place, row) in part.rows.of(view.rows.as_slice()).iter().enumerate() {
            let column = place.wrapping_add(1);
            let offers = row.offers.of(view.offers.as_slice());
            for (offer, variable) in offers.iter().zip(row.offers.of(self.offers.as_slice())) {
                let link = (offer.link as usize).wrapping_sub(part.links.from);
                let entry = link.wrapping_mul(rows).wrapping_add(column);
                add(self.crossings.as_mut_slice(), entry, variable.ratio);
                let mut span = at(self.spans.as_slice(), link, NO_PLACES);
                if span.to == 0 {
                    span.from = column;
                }
                span.to = column.wrapping_add(1);
                put(self.spans.as_mut_slice(), link, span);
            }
        }
    }

    /// Adds to the candidates' triangle what goes through a part.
    fn add_part(&mut self, view: &View, part: &ViewPart, rows: usize) {
        let owners = part.links.of(view.owners.as_slice());
        let inverses = part.links.of(self.inverses.as_slice());
        let spans = self.spans.as_slice();
        let crossings = self.crossings.as_slice();
        let candidates = view.candidates.len().min(256);
        let master = self.master.as_mut_slice();
        let lines = crossings.chunks_exact(rows.max(1)).zip(spans).zip(owners);
        for (place, ((line, span), owner)) in lines.enumerate() {
            let others = crossings.chunks_exact(rows.max(1)).zip(spans).zip(owners);
            for ((other, its), peer) in others.take(place) {
                let from = span.from.max(its.from).min(line.len()).min(other.len());
                let product = dot(&line[from..], &other[from..]);
                let place = entry(candidates, *owner as usize, *peer as usize);
                let times = if owner == peer { 2.0 } else { 1.0 };
                add(master, place, times * product);
            }
            let own = dot(line, line) + at(inverses, place, 0.0);
            let diagonal = entry(candidates, *owner as usize, *owner as usize);
            add(master, diagonal, own);
        }
    }

    /// Adds the shares to the diagonal of the candidates' triangle, factors that, and finds what it makes of the sizes: the
    /// room adds these times these, which is left to each solution.
    fn finish(&mut self, candidates: usize) {
        self.spread.clear();
        for (row, share) in self.shares.as_slice().iter().enumerate() {
            let place = entry(candidates, row, row);
            add(self.master.as_mut_slice(), place, share.weight());
            append(&mut self.spread, share.size);
        }
        factor(self.master.as_mut_slice(), candidates);
        solve_transposed(self.master.as_slice(), 0, self.spread.as_mut_slice());
        solve(self.master.as_slice(), self.spread.as_mut_slice());
        self.stiffness = self.knapsack.ratio;
        for (share, spread) in self.shares.as_slice().iter().zip(self.spread.as_slice()) {
            self.stiffness += share.size * *spread;
        }
    }
}
