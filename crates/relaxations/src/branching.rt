//! The rules by which a search branches on candidates of groups.

use crate::tree::MOST_NODES;

/// The least price of a page by which what rises is told in pages.
const LEAST_PAGE: f64 = 1e-12;

/// What a branch on a candidate of a group is worth: by what the value rises by on both sides, or where the candidate comes in
/// alone, as so many times its pages in doubt. A search by it has so many visits.
#[derive(Clone, Copy)]
pub(crate) struct Rule {
    is_of_both: bool,
    worth: f64,
    pub visits: usize,
}

/// One after the other until a search comes to its end, and on where a plan along its tree is left open. The third is the first
/// with as many visits as there can be.
pub(crate) const RULES: [Rule; 5] = [
    Rule {
        is_of_both: true,
        worth: 24.0,
        visits: 300,
    },
    Rule {
        is_of_both: false,
        worth: 0.5,
        visits: 2000,
    },
    Rule {
        is_of_both: true,
        worth: 24.0,
        visits: MOST_NODES,
    },
    Rule {
        is_of_both: false,
        worth: 3.0,
        visits: MOST_NODES,
    },
    Rule {
        is_of_both: false,
        worth: 1.0,
        visits: MOST_NODES,
    },
];

impl Rule {
    /// What a branch is worth, in pages at a price, where the value rises by so much on its sides and so much is missing.
    pub(crate) fn pages(&self, inside: f64, outside: f64, missing: f64, page: f64) -> f64 {
        let rise = if self.is_of_both {
            inside.min(outside)
        } else {
            inside
        };
        self.worth * rise.min(missing).max(0.0) / page.max(LEAST_PAGE)
    }
}
