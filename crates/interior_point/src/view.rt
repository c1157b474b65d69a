//! The linear relaxation of a node in `f64`: prices times weight, bases lowered by what is in, without what is out or can't be.

use crate::matrix::{Matrix, MatrixPart, NO_PRICE, Row, Template, float_of};
use crate::places::{NO_PLACES, Places, append, at, put};
use adv_base::NoMemory;
use std::alloc::Global;
use std::num::nearest_i64_to_f64;

/// In place of a price where there is none.
pub(crate) const BIG: f64 = 1e300;
/// In place of the place of a link or of a row that isn't in the view.
pub(crate) const NO_NUMBER: u32 = u32::MAX;
/// In place of the number of a candidate that isn't in the view.
pub(crate) const NO_LOCAL: u16 = u16::MAX;

/// An order that some open candidate offers: what it costs without them (at most BIG), and their offers, by price.
#[derive(Clone, Copy)]
pub struct ViewRow {
    pub base: f64,
    pub offers: Places,
}

/// An offer, with the place of its link in the view.
#[derive(Clone, Copy)]
pub struct ViewOffer {
    pub price: f64,
    pub link: u32,
}

/// A template that needs a row: the rest of its cost, and where its rows stand in `needs`.
#[derive(Clone, Copy)]
pub struct ViewTemplate {
    pub cost: f64,
    pub needs: Places,
}

/// A part in which a candidate offers something: the least cost of templates without rows (at most BIG), its place in the
/// matrix, and what it has.
#[derive(Clone, Copy)]
pub struct ViewPart {
    pub fixed: f64,
    pub part: u32,
    pub rows: Places,
    pub templates: Places,
    pub links: Places,
}

/// A node of a search: which candidates are in, which aren't out, and the budget in pages.
#[derive(Clone, Copy)]
pub struct ViewNode {
    pub inside: [bool; 256],
    pub allowed: [bool; 256],
    pub budget: i64,
}

/// The view of a node. Its candidates are those that are open and offer something; `local` has the number of each in the view.
#[derive(Drop)]
pub struct View {
    pub candidates: Vec<u8>,
    pub local: [u16; 256],
    pub sizes: Vec<f64>,
    pub upkeep: Vec<f64>,
    pub parts: Vec<ViewPart>,
    pub rows: Vec<ViewRow>,
    pub offers: Vec<ViewOffer>,
    pub templates: Vec<ViewTemplate>,
    pub needs: Vec<u32>,
    /// The place in the matrix of each link, and its candidate's number in the view.
    pub links: Vec<u32>,
    pub owners: Vec<u16>,
    /// What all costs that has no choice, and the pages that are left.
    pub constant: f64,
    pub room: f64,
    /// The place in the view of each link of the matrix, and what became of the rows of the part that is opened.
    pub(crate) numbers: Vec<u32>,
    opened: Vec<OpenedRow>,
}

/// A row of the matrix in the view: its place there, or the price of what is in or exists.
#[derive(Clone, Copy)]
struct OpenedRow {
    place: u32,
    price: f64,
}

/// What a part is opened with.
#[derive(Clone, Copy)]
struct Opening<'a> {
    matrix: &'a Matrix,
    inside: &'a [bool; 256],
    weight: f64,
}

/// A price by weight.
fn weighted(price: i64, weight: f64) -> f64 {
    if price >= NO_PRICE {
        BIG
    } else {
        nearest_i64_to_f64(price) * weight
    }
}

impl View {
    /// All memory that views of a matrix take. Want of memory is the one error.
    pub fn new(alloc: Global, matrix: &Matrix) -> Result<View, NoMemory> {
        let links = matrix.links.len();
        let mut rows = 0;
        for part in matrix.parts.as_slice() {
            rows = part.rows.count().max(rows);
        }
        Ok(View {
            candidates: Vec::with_capacity(alloc, 256)?,
            local: [NO_LOCAL; 256],
            sizes: Vec::with_capacity(alloc, 256)?,
            upkeep: Vec::with_capacity(alloc, 256)?,
            parts: Vec::with_capacity(alloc, matrix.parts.len())?,
            rows: Vec::with_capacity(alloc, matrix.rows.len())?,
            offers: Vec::with_capacity(alloc, matrix.offers.len())?,
            templates: Vec::with_capacity(alloc, matrix.templates.len())?,
            needs: Vec::with_capacity(alloc, matrix.needs.len())?,
            links: Vec::with_capacity(alloc, links)?,
            owners: Vec::with_capacity(alloc, links)?,
            constant: 0.0,
            room: 0.0,
            numbers: vec![in alloc; NO_NUMBER; links]?,
            opened: Vec::with_capacity(alloc, rows)?,
        })
    }

    /// Makes the view of a node, with prices cut to what a configuration can pay that costs less than a known cost.
    pub fn open(&mut self, matrix: &Matrix, node: &ViewNode, cost: f64) {
        self.clear();
        self.admit(matrix, node);
        for (place, part) in matrix.parts.as_slice().iter().enumerate() {
            let opening = Opening {
                matrix,
                inside: &node.inside,
                weight: nearest_i64_to_f64(part.weight),
            };
            self.open_part(&opening, part, place);
        }
        self.cut(cost);
        self.compact();
    }

    /// Empties the lists.
    fn clear(&mut self) {
        self.candidates.clear();
        self.local = [NO_LOCAL; 256];
        self.sizes.clear();
        self.upkeep.clear();
        self.parts.clear();
        self.rows.clear();
        self.offers.clear();
        self.templates.clear();
        self.needs.clear();
        self.links.clear();
        self.owners.clear();
        self.numbers.as_mut_slice().fill(NO_NUMBER);
    }

    /// Counts what is in, and lists the open candidates.
    fn admit(&mut self, matrix: &Matrix, node: &ViewNode) {
        let mut left = node.budget;
        let mut constant = matrix.kept;
        for a in 0..matrix.count.min(256) {
            if node.inside[a] {
                left = left.saturating_sub(matrix.sizes[a]);
                constant = constant.saturating_add(matrix.upkeep[a]);
            }
        }
        for a in 0..matrix.count.min(256) {
            if node.allowed[a] && !node.inside[a] && matrix.sizes[a] <= left {
                self.local[a] = (self.candidates.len() & 255) as u16;
                append(&mut self.candidates, (a & 255) as u8);
                append(&mut self.sizes, nearest_i64_to_f64(matrix.sizes[a]));
                append(&mut self.upkeep, float_of(matrix.upkeep[a]));
            }
        }
        self.constant = float_of(constant);
        self.room = nearest_i64_to_f64(left);
    }

    /// Opens a part of the matrix; one in which no open candidate offers anything is counted and gone.
    fn open_part(&mut self, opening: &Opening<'_>, part: &MatrixPart, place: usize) {
        let rows = self.rows.len();
        let offers = self.offers.len();
        let templates = self.templates.len();
        let links = self.links.len();
        self.opened.clear();
        for row in part.rows.of(opening.matrix.rows.as_slice()) {
            self.open_row(opening, row);
        }
        let mut fixed = BIG;
        for template in part.templates.of(opening.matrix.templates.as_slice()) {
            fixed = fixed.min(self.open_template(opening, template, part.rows.from));
        }
        if self.templates.len() > templates {
            let part = ViewPart {
                fixed,
                part: (place & 0x7fff_ffff) as u32,
                rows: Places {
                    from: rows,
                    to: self.rows.len(),
                },
                templates: Places {
                    from: templates,
                    to: self.templates.len(),
                },
                links: Places {
                    from: links,
                    to: self.links.len(),
                },
            };
            append(&mut self.parts, part);
        } else {
            self.constant += fixed;
            self.rows.truncate(rows);
            self.offers.truncate(offers);
            self.links.truncate(links);
            self.owners.truncate(links);
        }
    }

    /// The place in the view of a link, which is made where there is none yet.
    fn number(&mut self, link: u32, owner: u16) -> u32 {
        let known = at(self.numbers.as_slice(), link as usize, NO_NUMBER);
        if known != NO_NUMBER {
            return known;
        }
        let number = (self.links.len() & 0x7fff_ffff) as u32;
        append(&mut self.links, link);
        append(&mut self.owners, owner);
        put(self.numbers.as_mut_slice(), link as usize, number);
        number
    }

    /// Opens a row: the offers of open candidates below the price of what is in or exists.
    fn open_row(&mut self, opening: &Opening<'_>, row: &Row) {
        let from = self.offers.len();
        let mut base = row.base;
        for offer in row.offers.of(opening.matrix.offers.as_slice()) {
            let a = offer.candidate as usize;
            if opening.inside[a] {
                base = offer.price;
                break;
            }
            let owner = self.local[a];
            if owner != NO_LOCAL {
                let price = nearest_i64_to_f64(offer.price) * opening.weight;
                let link = self.number(offer.link, owner);
                append(&mut self.offers, ViewOffer { price, link });
            }
        }
        let price = weighted(base, opening.weight);
        self.drop_offers(from, price);
        let to = self.offers.len();
        if to == from {
            append(
                &mut self.opened,
                OpenedRow {
                    place: NO_NUMBER,
                    price,
                },
            );
            return;
        }
        let place = (self.rows.len() & 0x7fff_ffff) as u32;
        append(&mut self.opened, OpenedRow { place, price });
        append(
            &mut self.rows,
            ViewRow {
                base: price,
                offers: Places { from, to },
            },
        );
    }

    /// Drops the last offers, from a place on, that aren't below a price.
    fn drop_offers(&mut self, from: usize, price: f64) {
        let mut kept = self.offers.len();
        for offer in self.offers.as_slice().iter().rev() {
            if kept <= from || offer.price < price {
                break;
            }
            kept -= 1;
        }
        self.offers.truncate(kept);
    }

    /// Opens a template, and answers BIG; or answers what it costs where no open candidate serves it.
    fn open_template(&mut self, opening: &Opening<'_>, template: &Template, first: usize) -> f64 {
        let from = self.needs.len();
        let mut cost = nearest_i64_to_f64(template.internal) * opening.weight;
        for need in template.needs.of(opening.matrix.needs.as_slice()) {
            let place = (*need as usize).wrapping_sub(first);
            let row = at(
                self.opened.as_slice(),
                place,
                OpenedRow {
                    place: NO_NUMBER,
                    price: BIG,
                },
            );
            if row.place == NO_NUMBER {
                cost += row.price;
            } else {
                append(&mut self.needs, row.place);
            }
        }
        let needs = Places {
            from,
            to: self.needs.len(),
        };
        if cost >= BIG {
            self.needs.truncate(from);
        } else if needs.count() > 0 {
            append(&mut self.templates, ViewTemplate { cost, needs });
            return BIG;
        }
        cost.min(BIG)
    }

    /// The places of a row's offers.
    pub(crate) fn offers_of(&self, row: usize) -> Places {
        if row < self.rows.len() {
            self.rows[row].offers
        } else {
            NO_PLACES
        }
    }

    /// The least price of a row's offers, where no rent is asked.
    pub(crate) fn least_price(&self, row: usize) -> f64 {
        let offers = self.offers_of(row).of(self.offers.as_slice());
        if offers.len() > 0 {
            offers[0].price
        } else {
            0.0
        }
    }

    /// What a template costs at least, where no rent is asked.
    pub(crate) fn least_cost(&self, template: &ViewTemplate) -> f64 {
        let mut cost = template.cost;
        for need in template.needs.of(self.needs.as_slice()) {
            cost += self.least_price(*need as usize);
        }
        cost
    }

    /// What a part costs at least, where no rent is asked.
    pub(crate) fn least_of(&self, part: &ViewPart) -> f64 {
        let mut least = part.fixed;
        for template in part.templates.of(self.templates.as_slice()) {
            least = least.min(self.least_cost(template));
        }
        least
    }
}
