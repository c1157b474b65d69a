//! The directions: right sides, the solution by the triangles, and the steps.

use crate::cholesky::{solve, solve_transposed, triangle};
use crate::interior::Interior;
use crate::interior::variable::{Pass, Reach, WHOLE};
use crate::places::{Places, add, append, at, put, refill};
use crate::view::{View, ViewPart};

impl Interior {
    /// Finds a direction, and answers how far one can go along it.
    pub(crate) fn direct(&mut self, view: &View, pass: &Pass) -> Reach {
        self.aim(view, pass);
        self.solve_parts(view);
        refill(&mut self.solution, self.shares.len(), 0.0);
        for (owner, step) in view
            .owners
            .as_slice()
            .iter()
            .zip(self.steps.links.as_slice())
        {
            add(self.solution.as_mut_slice(), *owner as usize, -*step);
        }
        solve_transposed(self.master.as_slice(), 0, self.solution.as_mut_slice());
        solve(self.master.as_slice(), self.solution.as_mut_slice());
        self.fill_room();
        let sides = self.sides.links.as_mut_slice();
        for (side, owner) in sides.iter_mut().zip(view.owners.as_slice()) {
            *side += at(self.solution.as_slice(), *owner as usize, 0.0);
        }
        self.solve_parts(view);
        self.turn(view, pass)
    }

    /// Finds the step of the price of a page, by which a solution of the candidates' triangle fills the room, and makes it
    /// fill that.
    fn fill_room(&mut self) {
        let mut left = self.sides.room;
        for (share, value) in self.shares.as_slice().iter().zip(self.solution.as_slice()) {
            left -= share.size * *value;
        }
        self.steps.room = left / self.stiffness;
        let solution = self.solution.as_mut_slice();
        for (value, spread) in solution.iter_mut().zip(self.spread.as_slice()) {
            *value += self.steps.room * *spread;
        }
    }

    /// Aims all variables, and writes the right sides.
    fn aim(&mut self, view: &View, pass: &Pass) {
        self.sides.reset(view);
        let page = self.knapsack.slack;
        self.sides.room = self.room + self.knapsack.aim(-page, pass);
        for share in self.shares.as_mut_slice() {
            share.priced = share.cost + share.size * page;
        }
        for (owner, link) in view.owners.as_slice().iter().zip(self.links.as_slice()) {
            let place = *owner as usize;
            if place < self.shares.len() {
                self.shares[place].priced -= link.slack;
            }
        }
        self.solution.clear();
        for share in self.shares.as_mut_slice() {
            let gives = share.aim(pass);
            self.sides.room += share.size * gives;
            append(&mut self.solution, gives);
        }
        let sides = self.sides.links.as_mut_slice().iter_mut();
        let links = self.links.as_mut_slice().iter_mut();
        for ((side, link), owner) in sides.zip(links).zip(view.owners.as_slice()) {
            let priced = -link.slack;
            *side = link.aim(priced, pass) - at(self.solution.as_slice(), *owner as usize, 0.0);
        }
        for (place, part) in view.parts.as_slice().iter().enumerate() {
            self.aim_templates(view, place, part, pass);
        }
        for place in 0..view.rows.len() {
            self.aim_row(view, place, pass);
        }
    }

    /// Aims the templates of a part and what it costs without rows.
    fn aim_templates(&mut self, view: &View, place: usize, part: &ViewPart, pass: &Pass) {
        let own = at(self.part_values.as_slice(), place, 0.0);
        let mut side = 1.0;
        if place < self.fixed.len() && self.fixed[place].is_there() {
            side += self.fixed[place].aim(own, pass);
        }
        let templates = part.templates.of(view.templates.as_slice());
        let variables = part.templates.of_mut(self.templates.as_mut_slice());
        for (variable, template) in variables.iter_mut().zip(templates) {
            let needs = template.needs.of(view.needs.as_slice());
            let mut priced = own;
            for need in needs {
                priced -= at(self.row_values.as_slice(), *need as usize, 0.0);
            }
            let gives = variable.aim(priced, pass);
            side += gives;
            for need in needs {
                add(self.sides.rows.as_mut_slice(), *need as usize, -gives);
            }
        }
        put(self.sides.parts.as_mut_slice(), place, side);
    }

    /// Aims the base and the offers of a row.
    fn aim_row(&mut self, view: &View, place: usize, pass: &Pass) {
        if place >= view.rows.len() {
            return;
        }
        let row = &view.rows[place];
        let own = at(self.row_values.as_slice(), place, 0.0);
        let mut side = 0.0;
        if place < self.bases.len() && self.bases[place].is_there() {
            side += self.bases[place].aim(own, pass);
        }
        let offers = row.offers.of(view.offers.as_slice());
        let variables = row.offers.of_mut(self.offers.as_mut_slice());
        for (variable, offer) in variables.iter_mut().zip(offers) {
            let link = offer.link as usize;
            let rent = if link < self.links.len() {
                self.links[link].slack
            } else {
                0.0
            };
            let gives = variable.aim(own - rent, pass);
            side += gives;
            add(self.sides.links.as_mut_slice(), link, gives);
        }
        add(self.sides.rows.as_mut_slice(), place, side);
    }

    /// Solves what the candidates leave, part by part: from the right sides the steps.
    fn solve_parts(&mut self, view: &View) {
        let steps = self.steps.links.as_mut_slice().iter_mut();
        let sides = self.sides.links.as_slice();
        for ((step, side), inverse) in steps.zip(sides).zip(self.inverses.as_slice()) {
            *step = *side * *inverse;
        }
        for (place, part) in view.parts.as_slice().iter().enumerate() {
            self.solve_part(view, place, part);
        }
    }

    /// Solves a part.
    fn solve_part(&mut self, view: &View, place: usize, part: &ViewPart) {
        self.local.clear();
        append(&mut self.local, at(self.sides.parts.as_slice(), place, 0.0));
        for place in part.rows.from..part.rows.to {
            let mut side = at(self.sides.rows.as_slice(), place, 0.0);
            let places = view.offers_of(place);
            let variables = places.of(self.offers.as_slice());
            for (offer, variable) in places.of(view.offers.as_slice()).iter().zip(variables) {
                let step = at(self.steps.links.as_slice(), offer.link as usize, 0.0);
                side -= variable.ratio * step;
            }
            append(&mut self.local, side);
        }
        let from = at(self.starts.as_slice(), place, 0);
        let to = from.saturating_add(triangle(self.local.len()));
        let factor = Places { from, to }.of(self.triangles.as_slice());
        solve_transposed(factor, 0, self.local.as_mut_slice());
        solve(factor, self.local.as_mut_slice());
        put(
            self.steps.parts.as_mut_slice(),
            place,
            at(self.local.as_slice(), 0, 0.0),
        );
        for (number, step) in self.local.as_slice().iter().skip(1).enumerate() {
            let place = part.rows.from.wrapping_add(number);
            put(self.steps.rows.as_mut_slice(), place, *step);
            let places = view.offers_of(place);
            let variables = places.of(self.offers.as_slice());
            for (offer, variable) in places.of(view.offers.as_slice()).iter().zip(variables) {
                let link = offer.link as usize;
                let inverse = at(self.inverses.as_slice(), link, 0.0);
                add(
                    self.steps.links.as_mut_slice(),
                    link,
                    -inverse * variable.ratio * *step,
                );
            }
        }
    }

    /// Turns all variables where the dual values step.
    fn turn(&mut self, view: &View, pass: &Pass) -> Reach {
        let mut reach = WHOLE;
        let page = self.steps.room;
        self.knapsack.turn(page, &mut reach);
        for share in self.shares.as_mut_slice() {
            share.priced = share.size * page;
        }
        let links = self.links.as_mut_slice().iter_mut();
        let steps = self.steps.links.as_slice();
        for ((link, step), owner) in links.zip(steps).zip(view.owners.as_slice()) {
            link.turn(*step, &mut reach);
            let place = *owner as usize;
            if place < self.shares.len() {
                self.shares[place].priced -= *step;
            }
        }
        for share in self.shares.as_mut_slice() {
            share.turn(pass, &mut reach);
        }
        for (place, part) in view.parts.as_slice().iter().enumerate() {
            self.turn_templates(view, place, part, &mut reach);
        }
        for place in 0..view.rows.len() {
            self.turn_row(view, place, &mut reach);
        }
        reach
    }

    /// Turns the templates of a part and what it costs without rows.
    fn turn_templates(&mut self, view: &View, place: usize, part: &ViewPart, reach: &mut Reach) {
        let own = at(self.steps.parts.as_slice(), place, 0.0);
        if place < self.fixed.len() && self.fixed[place].is_there() {
            self.fixed[place].turn(own, reach);
        }
        let templates = part.templates.of(view.templates.as_slice());
        let variables = part.templates.of_mut(self.templates.as_mut_slice());
        for (variable, template) in variables.iter_mut().zip(templates) {
            let mut change = own;
            for need in template.needs.of(view.needs.as_slice()) {
                change -= at(self.steps.rows.as_slice(), *need as usize, 0.0);
            }
            variable.turn(change, reach);
        }
    }

    /// Turns the base and the offers of a row.
    fn turn_row(&mut self, view: &View, place: usize, reach: &mut Reach) {
        if place >= view.rows.len() {
            return;
        }
        let row = &view.rows[place];
        let own = at(self.steps.rows.as_slice(), place, 0.0);
        if place < self.bases.len() && self.bases[place].is_there() {
            self.bases[place].turn(own, reach);
        }
        let offers = row.offers.of(view.offers.as_slice());
        let variables = row.offers.of_mut(self.offers.as_mut_slice());
        for (variable, offer) in variables.iter_mut().zip(offers) {
            let step = at(self.steps.links.as_slice(), offer.link as usize, 0.0);
            variable.turn(own + step, reach);
        }
    }
}
