//! What the value of a node rises by on both sides of a branch on a candidate, under the rents of its relaxation.

use crate::lagrangian::Lagrangian;
use crate::places::at;
use crate::view::{BIG, NO_LOCAL, View};

/// By how much a value rises at least where a candidate is in, and where it is out.
#[derive(Clone, Copy)]
pub struct Rises {
    pub inside: f64,
    pub outside: f64,
}

/// What all parts cost more without each candidate of a view, and what candidates earn in all.
#[derive(Clone, Copy)]
pub struct Losses {
    losses: [f64; 256],
    taken: f64,
}

/// The most candidates that the least plan of a part uses.
const MOST_USED: usize = 8;

/// The pages of a candidate of a view.
fn size(view: &View, number: usize) -> f64 {
    at(view.sizes.as_slice(), number, BIG)
}

/// The upkeep of a candidate less its rents.
fn earned(lagrangian: &Lagrangian, number: usize) -> f64 {
    at(lagrangian.earned.as_slice(), number, 0.0)
}

/// What candidates earn in a room, in part where one doesn't fit any more, but for one and for those above a size.
fn earned_in(view: &View, lagrangian: &Lagrangian, room: f64, other: usize, largest: f64) -> f64 {
    let mut left = room;
    let mut sum = 0.0;
    for place in 0..lagrangian.count.min(256) {
        let number = lagrangian.order[place] as usize;
        let size = size(view, number);
        if number == other || size > largest {
            continue;
        }
        let earned = earned(lagrangian, number);
        if size > left {
            return sum + earned * left / size;
        }
        left -= size;
        sum += earned;
    }
    sum
}

impl Losses {
    pub const BLANK: Losses = Losses {
        losses: [0.0; 256],
        taken: 0.0,
    };

    /// Adds what a part costs more without a candidate, where it isn't known yet that this is so much in all.
    fn lose(
        &mut self,
        view: &View,
        rents: &[f64],
        lagrangian: &mut Lagrangian,
        part: usize,
        owner: u16,
        need: f64,
    ) {
        let place = owner as usize & 255;
        if self.losses[place] < need {
            let without = lagrangian.without(view, rents, part, owner);
            let more = without - at(lagrangian.least.as_slice(), part, 0.0);
            self.losses[place] += more;
        }
    }

    /// Weighs the candidates of a view at rents at which it was evaluated. Losses that come to `need` aren't looked at further.
    pub fn weigh(&mut self, view: &View, rents: &[f64], lagrangian: &mut Lagrangian, need: f64) {
        *self = Losses::BLANK;
        let mut place = 0usize;
        for (part, own) in view.parts.iter().enumerate() {
            let mut seen = [NO_LOCAL; MOST_USED];
            for turn in 0..MOST_USED {
                let link = at(lagrangian.used.as_slice(), place, u32::MAX) as usize;
                if link >= own.links.to {
                    break;
                }
                place = place.wrapping_add(1);
                let owner = at(view.owners.as_slice(), link, NO_LOCAL);
                if !seen.contains(&owner) {
                    seen[turn] = owner;
                    self.lose(view, rents, lagrangian, part, owner, need);
                }
            }
        }
        self.taken = earned_in(view, lagrangian, view.room, 256, f64::INFINITY);
    }

    /// What the value rises by on both sides, at the best price of a page there.
    pub fn best_rises(&self, view: &View, lagrangian: &Lagrangian, number: usize) -> Rises {
        let left = view.room - size(view, number);
        let inside = if left < 0.0 {
            BIG
        } else {
            earned(lagrangian, number) + earned_in(view, lagrangian, left, number, left)
        };
        let outside = earned_in(view, lagrangian, view.room, number, f64::INFINITY);
        Rises {
            inside: inside - self.taken,
            outside: outside - self.taken + self.losses[number & 255],
        }
    }

    /// What the value rises by on both sides, at the price of a page where it was evaluated.
    pub fn rises(&self, view: &View, lagrangian: &Lagrangian, number: usize) -> Rises {
        let cost = earned(lagrangian, number) + lagrangian.page * size(view, number);
        Rises {
            inside: cost.max(0.0),
            outside: (0.0 - cost).max(0.0) + self.losses[number & 255],
        }
    }
}
