//! Where the interior point method begins.

use crate::interior::Interior;
use crate::interior::share::Share;
use crate::interior::variable::{NO_VARIABLE, Variable};
use crate::places::{append, at, put, refill};
use crate::view::{BIG, View, ViewPart};

/// The dual values of parts, rows and links, and the values of bases and templates.
const FIRST: f64 = 0.3;
/// The least slack.
const LEAST_SLACK: f64 = 0.05;

/// The most by which an offer, a base or a part without rows costs more than the least; at least 1.
fn spread(view: &View) -> f64 {
    let mut most = 1.0;
    for row in view.rows.as_slice() {
        let offers = row.offers.of(view.offers.as_slice());
        if offers.len() > 0 {
            let least = offers[0].price;
            let last = offers[offers.len() - 1].price;
            let high = if row.base < BIG { row.base } else { last };
            most = (high - least).max(most);
        }
    }
    for part in view.parts.as_slice() {
        if part.fixed < BIG {
            most = (part.fixed - view.least_of(part)).max(most);
        }
    }
    most
}

impl Interior {
    /// Begins at a view; whether there is memory for it.
    pub(crate) fn begin(&mut self, view: &View) -> bool {
        if !self.measure(view) {
            return false;
        }
        self.scale = spread(view);
        self.sides.reset(view);
        self.steps.reset(view);
        refill(&mut self.inverses, view.links.len(), 0.0);
        refill(&mut self.offers, view.offers.len(), NO_VARIABLE);
        refill(&mut self.bases, view.rows.len(), NO_VARIABLE);
        refill(&mut self.templates, view.templates.len(), NO_VARIABLE);
        self.fixed.clear();
        refill(&mut self.part_values, view.parts.len(), FIRST);
        refill(&mut self.row_values, view.rows.len(), FIRST);
        for part in view.parts.as_slice() {
            self.begin_part(view, part);
        }
        for place in 0..view.rows.len() {
            self.begin_row(view, place);
        }
        self.begin_shares(view);
        true
    }

    /// Begins with the templates of a part.
    fn begin_part(&mut self, view: &View, part: &ViewPart) {
        let least = view.least_of(part);
        let variables = part.templates.of_mut(self.templates.as_mut_slice());
        let templates = part.templates.of(view.templates.as_slice());
        for (variable, template) in variables.iter_mut().zip(templates) {
            let cost = (view.least_cost(template) - least) / self.scale;
            let mut slack = cost - FIRST;
            for _need in template.needs.of(view.needs.as_slice()) {
                slack += FIRST;
            }
            *variable = Variable::new(FIRST, slack.max(LEAST_SLACK), cost);
        }
        if part.fixed < BIG {
            let cost = (part.fixed - least) / self.scale;
            append(
                &mut self.fixed,
                Variable::new(FIRST, (cost - FIRST).max(LEAST_SLACK), cost),
            );
        } else {
            append(&mut self.fixed, NO_VARIABLE);
        }
    }

    /// Begins with the base and the offers of a row.
    fn begin_row(&mut self, view: &View, place: usize) {
        if place >= view.rows.len() {
            return;
        }
        let row = &view.rows[place];
        let least = view.least_price(place);
        if row.base < BIG {
            let cost = (row.base - least) / self.scale;
            let base = Variable::new(FIRST, (cost - FIRST).max(LEAST_SLACK), cost);
            put(self.bases.as_mut_slice(), place, base);
        }
        let variables = row.offers.of_mut(self.offers.as_mut_slice());
        for (variable, offer) in variables
            .iter_mut()
            .zip(row.offers.of(view.offers.as_slice()))
        {
            let cost = (offer.price - least) / self.scale;
            *variable = Variable::new(0.1, cost.max(LEAST_SLACK), cost);
        }
    }

    /// Begins with the shares, the links and the room.
    fn begin_shares(&mut self, view: &View) {
        let unit = view.room.max(1.0);
        self.room = view.room / unit;
        let mut total = 0.0;
        for size in view.sizes.as_slice() {
            total += *size / unit;
        }
        let share = (self.room / total.max(1e-9) * 0.8).min(0.5).max(1e-9);
        self.shares.clear();
        for (a, size) in view.sizes.as_slice().iter().enumerate() {
            let cost = at(view.upkeep.as_slice(), a, 0.0) / self.scale;
            append(&mut self.shares, Share::new(share, cost, *size / unit));
        }
        let left = (self.room - share * total).max(0.2 * self.room.max(0.1));
        self.knapsack = Variable::new(left, 1.0, 0.0);
        let link = Variable::new((share - 0.1).max(0.05), FIRST, 0.0);
        refill(&mut self.links, view.links.len(), link);
    }
}
