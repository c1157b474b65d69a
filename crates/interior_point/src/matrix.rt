//! A programme as one sparse matrix: what candidates offer below what exists.

use crate::places::{NO_PLACES, Places, at, put};
use std::num::nearest_i64_to_f64;

/// The most of a price, an internal cost or a size that is looked at, 2^55: what a plan costs stays below 2^59.
pub const LARGEST: i64 = 36_028_797_018_963_968;
/// In place of a base where nothing that exists gives an order, 2^59: more than any plan costs.
pub const NO_PRICE: i64 = 576_460_752_303_423_488;
/// The most of an upkeep that is looked at, 2^100.
pub const MOST_UPKEEP: u128 = 1_267_650_600_228_229_401_496_703_205_376;
/// The rows of a part whose prices fit a short list.
const FEW_ROWS: usize = 64;

/// What a candidate, counted from 0, offers for an order, with the place of its link.
#[derive(Clone, Copy)]
pub struct Offer {
    pub price: i64,
    pub link: u32,
    pub candidate: u8,
}

/// An order of a slot that a template needs and that a candidate offers below what exists: the price of what exists, and the
/// offers below it, by price.
#[derive(Clone, Copy)]
pub struct Row {
    pub base: i64,
    pub offers: Places,
}

/// A template: its internal cost with the bases of the orders that have no row, and where its rows stand in `needs`.
#[derive(Clone, Copy)]
pub struct Template {
    pub internal: i64,
    pub needs: Places,
}

/// A part of the programme. Some template of it has a price without candidates.
#[derive(Clone, Copy)]
pub struct MatrixPart {
    pub weight: i64,
    pub rows: Places,
    pub templates: Places,
    pub links: Places,
}

/// A grant that offers something: its candidate, from 0, its part, and the place of its rent among those of multipliers.
#[derive(Clone, Copy)]
pub struct Link {
    pub candidate: u8,
    pub part: u32,
    pub rent: usize,
}

/// The matrix. Candidates are counted from 0. `touched` has the places of the parts in which a candidate offers something, at
/// the places that `touches` has for it.
#[derive(Drop)]
pub struct Matrix {
    pub parts: Vec<MatrixPart>,
    pub rows: Vec<Row>,
    pub offers: Vec<Offer>,
    pub templates: Vec<Template>,
    pub needs: Vec<u32>,
    pub links: Vec<Link>,
    pub touched: Vec<u32>,
    pub touches: [Places; 256],
    pub sizes: [i64; 256],
    pub upkeep: [i128; 256],
    /// The group of each candidate, of which at most one may be in; 0 where it is in none.
    pub groups: [u8; 256],
    pub kept: i128,
    /// How many candidates there are.
    pub count: usize,
}

/// The float nearest to a number, or one beside it.
pub fn float_of(number: i128) -> f64 {
    let high = (number >> 32).clamp(i64::MIN as i128, i64::MAX as i128) as i64;
    let low = (number & 0xffff_ffff) as i64;
    nearest_i64_to_f64(high) * 4_294_967_296.0 + nearest_i64_to_f64(low)
}

/// The price of a row under a configuration.
fn price_of(offers: &[Offer], base: i64, on: &[bool; 256]) -> i64 {
    for offer in offers {
        if on[offer.candidate as usize] {
            return offer.price;
        }
    }
    base
}

impl Matrix {
    /// What a template costs by the prices of its part's rows, of which the first stands at a place.
    fn template_cost(&self, template: &Template, first: usize, prices: &[i64]) -> i64 {
        let mut cost = template.internal;
        for need in template.needs.of(self.needs.as_slice()) {
            let row = (*need as usize).wrapping_sub(first);
            cost = cost.wrapping_add(at(prices, row, NO_PRICE));
        }
        cost
    }

    /// The cost of a part, where its rows aren't more than the list of their prices has places.
    fn cost_by(&self, part: &MatrixPart, on: &[bool; 256], prices: &mut [i64]) -> i64 {
        let offers = self.offers.as_slice();
        let rows = part.rows.of(self.rows.as_slice());
        for (price, row) in prices.iter_mut().zip(rows) {
            *price = price_of(row.offers.of(offers), row.base, on);
        }
        let mut best = NO_PRICE;
        for template in part.templates.of(self.templates.as_slice()) {
            best = best.min(self.template_cost(template, part.rows.from, prices));
        }
        best
    }

    fn cost_by_many(&self, part: &MatrixPart, on: &[bool; 256]) -> i64 {
        let mut prices = [NO_PRICE; 2048];
        self.cost_by(part, on, prices.as_mut_slice())
    }

    fn cost_by_few(&self, part: &MatrixPart, on: &[bool; 256]) -> i64 {
        let mut prices = [NO_PRICE; FEW_ROWS];
        self.cost_by(part, on, prices.as_mut_slice())
    }

    /// What the plan of a part costs under a configuration, without its weight; 0 where there is no such part.
    pub fn part_cost(&self, part: usize, on: &[bool; 256]) -> i64 {
        if part >= self.parts.len() {
            return 0;
        }
        let part = &self.parts[part];
        if part.rows.count() <= FEW_ROWS {
            self.cost_by_few(part, on)
        } else {
            self.cost_by_many(part, on)
        }
    }

    /// Whether at most one of two candidates may be in.
    pub fn clash(&self, one: usize, other: usize) -> bool {
        let group = at(&self.groups, one, 0);
        group != 0 && one != other && group == at(&self.groups, other, 0)
    }

    /// What a configuration costs in all.
    pub fn total(&self, on: &[bool; 256]) -> i128 {
        let mut total = self.kept;
        for (chosen, upkeep) in on.iter().zip(self.upkeep) {
            if *chosen {
                total = total.wrapping_add(upkeep);
            }
        }
        for place in 0..self.parts.len() {
            let weight = self.parts[place].weight as i128;
            total = total.wrapping_add(weight.wrapping_mul(self.part_cost(place, on) as i128));
        }
        total
    }
}
