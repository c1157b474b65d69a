//! What the least plans of parts cost where some candidates may be used, each use for a rent.

use interior_point::{Matrix, MatrixPart, at};

/// Which candidates are meant; several share a bit.
pub(crate) type Shades = u64;

/// In place of a candidate where what exists is the cheapest.
pub(crate) const NO_CANDIDATE: u16 = u16::MAX;
/// In place of a candidate that is left out where none is.
const NOBODY: u16 = u16::MAX - 1;
/// In place of a link where what exists is the cheapest.
pub(crate) const NO_LINK: u32 = u32::MAX;

/// The bit of a candidate.
pub(crate) fn shade(candidate: u16) -> Shades {
    if candidate == NO_CANDIDATE {
        0
    } else {
        1u64 << (candidate as usize & 63)
    }
}

/// The least price of a row, with the candidate and the link that give it, and the least without that candidate, with the
/// candidate that gives this.
#[derive(Clone, Copy)]
pub(crate) struct RowPrice {
    pub least: i64,
    pub next: i64,
    pub link: u32,
    pub by: u16,
    pub next_by: u16,
}

/// What costs nothing.
pub(crate) const NO_ROW: RowPrice = RowPrice {
    least: 0,
    next: 0,
    link: NO_LINK,
    by: NO_CANDIDATE,
    next_by: NO_CANDIDATE,
};

impl RowPrice {
    /// Looks at an offer of another candidate.
    fn add(&mut self, asked: i64, candidate: u8, link: u32) {
        if asked < self.least {
            self.next = self.least;
            self.next_by = self.by;
            self.least = asked;
            self.by = candidate as u16;
            self.link = link;
        } else if asked < self.next {
            self.next = asked;
            self.next_by = candidate as u16;
        }
    }

    /// The price without a candidate.
    fn without(&self, candidate: u16) -> i64 {
        if self.by == candidate {
            self.next
        } else {
            self.least
        }
    }

    /// The bit of the candidate that gives it.
    fn shade_without(&self, candidate: u16) -> Shades {
        if self.by == candidate {
            shade(self.next_by)
        } else {
            shade(self.by)
        }
    }
}

/// What the least plan of a part costs, and on which candidates that rests.
#[derive(Clone, Copy)]
pub(crate) struct LeastPlan {
    pub cost: i64,
    pub shades: Shades,
}

/// A part without a plan.
pub(crate) const NO_PLAN: LeastPlan = LeastPlan { cost: 0, shades: 0 };

/// How much more a part costs without each of the candidates that its least plan uses, where this is known.
#[derive(Clone, Copy)]
pub(crate) struct PlanLosses {
    pub is_known: bool,
    pub count: usize,
    pub candidates: [u8; 8],
    pub amounts: [i64; 8],
}

/// Losses that aren't known.
pub(crate) const NO_LOSSES: PlanLosses = PlanLosses {
    is_known: false,
    count: 0,
    candidates: [0; 8],
    amounts: [0; 8],
};

impl PlanLosses {
    /// Whether a candidate is there.
    fn has(&self, candidate: u16) -> bool {
        for i in 0..self.count.min(8) {
            if self.candidates[i] as u16 == candidate {
                return true;
            }
        }
        false
    }
}

/// What may be used: candidates, for rents by link.
#[derive(Clone, Copy)]
pub(crate) struct Usable<'a> {
    pub matrix: &'a Matrix,
    pub on: &'a [bool; 256],
    pub rents: &'a [i64],
}

impl Usable<'_> {
    /// Writes the least price of each row of a part, without a link.
    pub(crate) fn write_least(&self, part: &MatrixPart, without: u32, rows: &mut [RowPrice]) {
        let all = part.rows.of(self.matrix.rows.as_slice());
        for (row, price) in all.iter().zip(rows.iter_mut()) {
            let mut least = row.base;
            let mut by = NO_CANDIDATE;
            let mut link = NO_LINK;
            for offer in row.offers.of(self.matrix.offers.as_slice()) {
                if offer.price >= least {
                    break;
                }
                if self.on[offer.candidate as usize] && offer.link != without {
                    let rent = at(self.rents, offer.link as usize, 0);
                    let asked = offer.price.saturating_add(rent);
                    if asked < least {
                        least = asked;
                        by = offer.candidate as u16;
                        link = offer.link;
                    }
                }
            }
            price.least = least;
            price.by = by;
            price.link = link;
        }
    }

    /// Writes both least prices of each row of a part.
    fn write_both(&self, part: &MatrixPart, rows: &mut [RowPrice]) {
        let all = part.rows.of(self.matrix.rows.as_slice());
        for (row, price) in all.iter().zip(rows.iter_mut()) {
            *price = NO_ROW;
            price.least = row.base;
            price.next = row.base;
            for offer in row.offers.of(self.matrix.offers.as_slice()) {
                if offer.price >= price.next {
                    break;
                }
                if self.on[offer.candidate as usize] {
                    let rent = at(self.rents, offer.link as usize, 0);
                    let asked = offer.price.saturating_add(rent);
                    price.add(asked, offer.candidate, offer.link);
                }
            }
        }
    }

    /// The rows that the least template of a part needs, without a candidate, and what it costs.
    fn least_without(&self, part: &MatrixPart, rows: &[RowPrice], candidate: u16) -> (&[u32], i64) {
        let mut best: (&[u32], i64) = (&[], i64::MAX);
        for template in part.templates.of(self.matrix.templates.as_slice()) {
            let needs = template.needs.of(self.matrix.needs.as_slice());
            let mut cost = template.internal;
            for need in needs {
                let row = (*need as usize).wrapping_sub(part.rows.from);
                cost = cost.saturating_add(at(rows, row, NO_ROW).without(candidate));
            }
            if cost < best.1 {
                best = (needs, cost);
            }
        }
        best
    }

    /// The rows that the least template of a part needs, and what it costs, by the least prices of rows.
    pub(crate) fn least(&self, part: &MatrixPart, rows: &[RowPrice]) -> (&[u32], i64) {
        self.least_without(part, rows, NOBODY)
    }

    /// The least plan of a part.
    pub(crate) fn plan(&self, part: &MatrixPart, rows: &mut [RowPrice]) -> LeastPlan {
        self.write_least(part, NO_LINK, rows);
        let (needs, cost) = self.least(part, rows);
        LeastPlan {
            cost,
            shades: shades_without(part, rows, needs, NOBODY),
        }
    }

    /// What a part loses without each candidate of its least plan, and on which candidates that rests.
    pub(crate) fn losses(&self, part: &MatrixPart, rows: &mut [RowPrice]) -> (PlanLosses, Shades) {
        self.write_both(part, rows);
        let (needs, cost) = self.least(part, rows);
        let mut losses = NO_LOSSES;
        losses.is_known = true;
        let mut shades = shades_without(part, rows, needs, NOBODY);
        for need in needs {
            let row = (*need as usize).wrapping_sub(part.rows.from);
            let by = at(rows, row, NO_ROW).by;
            if by != NO_CANDIDATE && !losses.has(by) && losses.count < 8 {
                let (others, more) = self.least_without(part, rows, by);
                losses.candidates[losses.count] = (by & 255) as u8;
                losses.amounts[losses.count] = more.saturating_sub(cost);
                losses.count += 1;
                shades |= shades_without(part, rows, others, by);
            }
        }
        (losses, shades)
    }
}

/// The candidates that give some rows without one of them.
fn shades_without(part: &MatrixPart, rows: &[RowPrice], needs: &[u32], candidate: u16) -> Shades {
    let mut shades = 0;
    for need in needs {
        let row = (*need as usize).wrapping_sub(part.rows.from);
        shades |= at(rows, row, NO_ROW).shade_without(candidate);
    }
    shades
}
