//! Lifting: rents of a node's relaxation are raised so that they serve at other nodes too, where what is in there is free,
//! and what is out there may be used. The bound at the node itself stays.

use crate::least_plans::{NO_CANDIDATE, NO_LINK, NO_ROW, RowPrice, Usable};
use adv_base::NoMemory;
use bip_model::{Fix, State};
use interior_point::{LARGEST, Matrix, MatrixPart, NO_PLACES, NO_PRICE, Places, at, put};
use std::alloc::Global;

/// A rent is raised so often in a part at most, for what is in.
const MOST_RAISES: u32 = 8;

/// An offer of a link: the place of its row, and its price.
#[derive(Clone, Copy)]
struct LinkOffer {
    row: usize,
    price: i64,
}

/// What lifting works with: the offers of each link, the least price of each row of a part, what its templates cost by
/// these, and the least of the templates that need a row.
#[derive(Drop)]
pub(crate) struct Lifting {
    offers: Vec<LinkOffer>,
    places: Vec<Places>,
    rows: Vec<RowPrice>,
    least: Vec<i64>,
}

/// Where the offers of each link will stand.
fn write_places(matrix: &Matrix, places: &mut [Places]) {
    for offer in matrix.offers.iter() {
        let link = offer.link as usize;
        if link < places.len() {
            places[link].to = places[link].to.saturating_add(1);
        }
    }
    let mut from = 0usize;
    for own in places.iter_mut() {
        let count = own.to;
        own.from = from;
        own.to = from;
        from = from.saturating_add(count);
    }
}

impl Lifting {
    /// All memory of lifting. Want of memory is the one error.
    pub(crate) fn new(alloc: Global, matrix: &Matrix) -> Result<Lifting, NoMemory> {
        let blank = LinkOffer { row: 0, price: 0 };
        let mut places = vec![in alloc; NO_PLACES; matrix.links.len()]?;
        let mut offers = vec![in alloc; blank; matrix.offers.len()]?;
        write_places(matrix, places.as_mut_slice());
        for (row, own) in matrix.rows.iter().enumerate() {
            for offer in own.offers.of(matrix.offers.as_slice()) {
                let link = offer.link as usize;
                if link < places.len() {
                    let price = offer.price;
                    put(
                        offers.as_mut_slice(),
                        places[link].to,
                        LinkOffer { row, price },
                    );
                    places[link].to = places[link].to.saturating_add(1);
                }
            }
        }
        let mut most = 0;
        for part in matrix.parts.iter() {
            most = part.rows.count().max(most);
        }
        Ok(Lifting {
            offers,
            places,
            rows: vec![in alloc; NO_ROW; most]?,
            least: vec![in alloc; 0; most]?,
        })
    }

    /// Raises the rents of what is in at a node and used by a part's least plan to what each use saves there.
    fn raise_inside(
        &mut self,
        usable: &Usable<'_>,
        fix: &Fix,
        part: &MatrixPart,
        rents: &mut [i64],
    ) {
        for _raise in 0..MOST_RAISES {
            let open = Usable { rents, ..*usable };
            match self.raise_of(&open, fix, part) {
                Some((link, rent)) => put(rents, link, rent),
                None => return,
            }
        }
    }

    /// A link of what is in that has no rent and is used by the least plan, and what it saves.
    fn raise_of(
        &mut self,
        usable: &Usable<'_>,
        fix: &Fix,
        part: &MatrixPart,
    ) -> Option<(usize, i64)> {
        usable.write_least(part, NO_LINK, self.rows.as_mut_slice());
        let (needs, cost) = usable.least(part, self.rows.as_slice());
        let mut links = [NO_LINK; 8];
        for (link, need) in links.iter_mut().zip(needs) {
            let row = (*need as usize).wrapping_sub(part.rows.from);
            let price = at(self.rows.as_slice(), row, NO_ROW);
            if price.by != NO_CANDIDATE && fix.state[(price.by & 255) as usize] == State::In {
                *link = price.link;
            }
        }
        for link in links {
            if link != NO_LINK && at(usable.rents, link as usize, 1) == 0 {
                usable.write_least(part, link, self.rows.as_mut_slice());
                let (_, without) = usable.least(part, self.rows.as_slice());
                if without < NO_PRICE && without > cost {
                    return Some((link as usize, without.saturating_sub(cost)));
                }
            }
        }
        None
    }

    /// Writes for each row of a part the least of the templates that need it.
    fn write_templates(&mut self, matrix: &Matrix, part: &MatrixPart) {
        for least in self.least.iter_mut() {
            *least = i64::MAX;
        }
        for template in part.templates.of(matrix.templates.as_slice()) {
            let needs = template.needs.of(matrix.needs.as_slice());
            let mut cost = template.internal;
            for need in needs {
                let row = (*need as usize).wrapping_sub(part.rows.from);
                cost = cost.saturating_add(at(self.rows.as_slice(), row, NO_ROW).least);
            }
            for need in needs {
                let row = (*need as usize).wrapping_sub(part.rows.from);
                let least = at(self.least.as_slice(), row, 0).min(cost);
                put(self.least.as_mut_slice(), row, least);
            }
        }
    }

    /// What a part costs at least with a link that asks no rent.
    fn least_with(&self, part: &MatrixPart, link: usize) -> i64 {
        let mut least = i64::MAX;
        let places = at(self.places.as_slice(), link, NO_PLACES);
        for offer in places.of(self.offers.as_slice()) {
            let row = offer.row.wrapping_sub(part.rows.from);
            let saved = at(self.rows.as_slice(), row, NO_ROW)
                .least
                .saturating_sub(offer.price);
            if saved > 0 {
                least = least.min(at(self.least.as_slice(), row, i64::MAX).saturating_sub(saved));
            }
        }
        least
    }

    /// Lets a link be used for a rent; whether a row became cheaper.
    fn admit(&mut self, part: &MatrixPart, link: usize, rent: i64) -> bool {
        let mut is_cheaper = false;
        let places = at(self.places.as_slice(), link, NO_PLACES);
        for offer in places.of(self.offers.as_slice()) {
            let row = offer.row.wrapping_sub(part.rows.from);
            let asked = offer.price.saturating_add(rent);
            if row < self.rows.len() && asked < self.rows[row].least {
                self.rows[row].least = asked;
                is_cheaper = true;
            }
        }
        is_cheaper
    }

    /// Gives a rent to each link of a part that may not be used at a node, one after the other: what it would save there.
    fn raise_outside(&mut self, usable: &Usable<'_>, part: &MatrixPart, rents: &mut [i64]) {
        let open = Usable { rents, ..*usable };
        open.write_least(part, NO_LINK, self.rows.as_mut_slice());
        let (_, cost) = open.least(part, self.rows.as_slice());
        if cost >= NO_PRICE {
            return;
        }
        self.write_templates(usable.matrix, part);
        for link in part.links.from..part.links.to {
            if link >= usable.matrix.links.len() {
                return;
            }
            if usable.on[usable.matrix.links[link].candidate as usize] {
                continue;
            }
            let rent = cost.saturating_sub(self.least_with(part, link)).max(0);
            put(rents, link, rent);
            if self.admit(part, link, rent) {
                self.write_templates(usable.matrix, part);
            }
        }
    }

    /// Lifts rents by link that stand at a node, where what isn't open has none.
    pub(crate) fn lift(&mut self, matrix: &Matrix, fix: &Fix, rents: &mut [i64]) {
        let mut on = [false; 256];
        for a in 0..256 {
            on[a] = fix.state[a] != State::Out;
        }
        let usable = Usable {
            matrix,
            on: &on,
            rents: &[],
        };
        for part in matrix.parts.iter() {
            self.raise_inside(&usable, fix, part, rents);
            self.raise_outside(&usable, part, rents);
        }
        for rent in rents.iter_mut() {
            *rent = (*rent).clamp(0, LARGEST);
        }
    }
}
