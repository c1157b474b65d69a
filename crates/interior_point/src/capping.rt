//! Cuts a view to what matters: no configuration that is cheaper than a known cost pays more in one place than what this cost
//! has over the least conceivable one; and what offers nothing then is gone.

use crate::places::{Places, at, put};
use crate::view::{NO_LOCAL, NO_NUMBER, View, ViewOffer, ViewTemplate};

/// In place of an offer that isn't there.
const NO_OFFER: ViewOffer = ViewOffer {
    price: 0.0,
    link: NO_NUMBER,
};

impl View {
    /// Cuts prices above what a configuration cheaper than a cost can pay to that.
    pub(crate) fn cut(&mut self, cost: f64) {
        let mut sum = self.constant;
        for part in self.parts.as_slice() {
            sum += self.least_of(part);
        }
        let more = (cost - sum).max(0.0) * 1.000001 + 1.0;
        for upkeep in self.upkeep.as_mut_slice() {
            *upkeep = upkeep.min(more);
        }
        for place in 0..self.parts.len() {
            self.cut_part(place, more);
        }
        for place in 0..self.rows.len() {
            self.cut_row(place, more);
        }
    }

    /// Cuts the templates of a part and what it costs without rows.
    fn cut_part(&mut self, place: usize, more: f64) {
        if place >= self.parts.len() {
            return;
        }
        let part = self.parts[place];
        let most = self.least_of(&part) + more;
        for place in part.templates.from..part.templates.to.min(self.templates.len()) {
            let template: ViewTemplate = self.templates[place];
            let excess = self.least_cost(&template) - most;
            if excess > 0.0 {
                self.templates[place].cost = template.cost - excess;
            }
        }
        self.parts[place].fixed = part.fixed.min(most);
    }

    /// Cuts the base of a row, and drops the offers that aren't below it, but for the first.
    fn cut_row(&mut self, place: usize, more: f64) {
        let most = self.least_price(place) + more;
        if place >= self.rows.len() || self.rows[place].base <= most {
            return;
        }
        let offers = self.rows[place].offers;
        let mut kept = 1usize;
        for offer in offers.of(self.offers.as_slice()).iter().skip(1) {
            if offer.price >= most {
                break;
            }
            kept = kept.saturating_add(1);
        }
        self.rows[place].base = most;
        self.rows[place].offers.to = offers.to.min(offers.from.saturating_add(kept));
    }

    /// Takes out the offers that no row has any more, and then the links and the candidates without an offer.
    pub(crate) fn compact(&mut self) {
        self.compact_offers();
        let renumbered = self.renumbered();
        self.compact_candidates(&renumbered);
        self.compact_links(&renumbered);
    }

    /// Moves the offers together, and marks their links.
    fn compact_offers(&mut self) {
        self.numbers.as_mut_slice().fill(NO_NUMBER);
        let mut next = 0usize;
        for place in 0..self.rows.len() {
            let offers = self.rows[place].offers;
            let from = next;
            for old in offers.from..offers.to {
                let offer = at(self.offers.as_slice(), old, NO_OFFER);
                put(self.offers.as_mut_slice(), next, offer);
                put(self.numbers.as_mut_slice(), offer.link as usize, 0);
                next = next.saturating_add(1);
            }
            self.rows[place].offers = Places { from, to: next };
        }
        self.offers.truncate(next);
    }

    /// The new number of each candidate of the view, where it has a link that is marked.
    fn renumbered(&self) -> [u16; 256] {
        let mut used = [false; 256];
        for (owner, mark) in self.owners.as_slice().iter().zip(self.numbers.as_slice()) {
            if *mark != NO_NUMBER {
                used[(*owner & 255) as usize] = true;
            }
        }
        let mut renumbered = [NO_LOCAL; 256];
        let mut next = 0u16;
        for old in 0..256 {
            if used[old] {
                renumbered[old] = next;
                next = next.saturating_add(1);
            }
        }
        renumbered
    }

    /// Moves the candidates that have a new number together.
    fn compact_candidates(&mut self, renumbered: &[u16; 256]) {
        let mut next = 0usize;
        for old in 0..self.candidates.len().min(256) {
            let candidate = self.candidates[old];
            self.local[candidate as usize] = renumbered[old];
            if renumbered[old] != NO_LOCAL {
                put(self.candidates.as_mut_slice(), next, candidate);
                let size = at(self.sizes.as_slice(), old, 0.0);
                put(self.sizes.as_mut_slice(), next, size);
                let upkeep = at(self.upkeep.as_slice(), old, 0.0);
                put(self.upkeep.as_mut_slice(), next, upkeep);
                next = next.saturating_add(1);
            }
        }
        self.candidates.truncate(next);
        self.sizes.truncate(next);
        self.upkeep.truncate(next);
    }

    /// Moves the links that are marked together, and renumbers those of the offers.
    fn compact_links(&mut self, renumbered: &[u16; 256]) {
        let mut next = 0usize;
        for place in 0..self.parts.len() {
            let links = self.parts[place].links;
            let from = next;
            for old in links.from..links.to {
                if at(self.numbers.as_slice(), old, NO_NUMBER) != NO_NUMBER {
                    put(
                        self.numbers.as_mut_slice(),
                        old,
                        (next & 0x7fff_ffff) as u32,
                    );
                    let link = at(self.links.as_slice(), old, 0);
                    put(self.links.as_mut_slice(), next, link);
                    let owner = at(self.owners.as_slice(), old, 0);
                    let owner = renumbered[(owner & 255) as usize];
                    put(self.owners.as_mut_slice(), next, owner);
                    next = next.saturating_add(1);
                }
            }
            self.parts[place].links = Places { from, to: next };
        }
        self.links.truncate(next);
        self.owners.truncate(next);
        for offer in self.offers.as_mut_slice() {
            offer.link = at(self.numbers.as_slice(), offer.link as usize, NO_NUMBER);
        }
    }
}
