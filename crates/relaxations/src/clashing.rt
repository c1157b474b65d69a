//! Groups of candidates of which at most one may be in: those that are clustered on one table.

use adv_base::IndexShape;
use bip_model::{Fix, State};
use interior_point::Matrix;

/// The first candidate that is clustered on a table.
fn first_clustered(shapes: &[IndexShape], table: u16) -> usize {
    for (a, shape) in shapes.iter().enumerate() {
        if shape.clustered && shape.table == table {
            return a;
        }
    }
    usize::MAX
}

/// The group of each candidate, by the first of it, from 1; 0 where nothing clashes with it.
pub(crate) fn groups_of(shapes: &[IndexShape]) -> [u8; 256] {
    let mut groups = [0; 256];
    for (group, shape) in groups.iter_mut().zip(shapes) {
        if shape.clustered {
            let first = first_clustered(shapes, shape.table);
            // What comes last is alone.
            *group = if first < 255 { first as u8 + 1 } else { 0 };
        }
    }
    let mut counts = [0u16; 256];
    for group in groups {
        let count = counts[group as usize];
        counts[group as usize] = count.saturating_add(1);
    }
    for group in groups.iter_mut() {
        if counts[*group as usize] < 2 {
            *group = 0;
        }
    }
    groups
}

/// How many of each group are in, how many of all, and how many of these are too many.
#[derive(Clone, Copy)]
pub(crate) struct Members {
    counts: [u16; 256],
    all: usize,
    pub clashes: usize,
}

impl Members {
    pub(crate) const BLANK: Members = Members {
        counts: [0; 256],
        all: 0,
        clashes: 0,
    };

    /// Whether none of any group is in.
    pub(crate) fn is_empty(&self) -> bool {
        self.all == 0
    }

    /// Counts one of a group that comes in.
    pub(crate) fn enter(&mut self, group: u8) {
        if group != 0 {
            let count = self.counts[group as usize];
            self.counts[group as usize] = count.saturating_add(1);
            self.all = self.all.saturating_add(1);
            if count > 0 {
                self.clashes = self.clashes.saturating_add(1);
            }
        }
    }

    /// Counts one of a group that is in no more.
    pub(crate) fn leave(&mut self, group: u8) {
        if group != 0 {
            let count = self.counts[group as usize].saturating_sub(1);
            self.counts[group as usize] = count;
            self.all = self.all.saturating_sub(1);
            if count > 0 {
                self.clashes = self.clashes.saturating_sub(1);
            }
        }
    }

    /// Whether one of a group is in.
    pub(crate) fn has(&self, group: u8) -> bool {
        group != 0 && self.counts[group as usize] > 0
    }
}

/// Leaves out what clashes with what is in; whether no two of this clash.
pub(crate) fn leave_out_clashing(matrix: &Matrix, fix: &mut Fix) -> bool {
    let mut members = Members::BLANK;
    for a in 0..256 {
        if fix.state[a] == State::In {
            members.enter(matrix.groups[a]);
        }
    }
    for a in 0..256 {
        if members.has(matrix.groups[a]) && fix.state[a] == State::Free {
            fix.state[a] = State::Out;
        }
    }
    members.clashes == 0
}

/// What a relaxation takes of each group in all, and what the value rises by where all of it is left out, one by one.
#[derive(Clone, Copy)]
pub(crate) struct GroupShares {
    shares: [f64; 256],
    losses: [f64; 256],
}

impl GroupShares {
    pub(crate) const BLANK: GroupShares = GroupShares {
        shares: [0.0; 256],
        losses: [0.0; 256],
    };

    /// Adds a candidate, with what the value rises by where it is left out.
    pub(crate) fn add(&mut self, group: u8, share: f64, outside: f64) {
        if group != 0 {
            self.shares[group as usize] += share;
            self.losses[group as usize] += outside.max(0.0);
        }
    }

    /// How much of a candidate's share is too much, as its group has more than one.
    pub(crate) fn excess(&self, group: u8, share: f64) -> f64 {
        if group == 0 {
            0.0
        } else {
            share.min(self.shares[group as usize] - 1.0).max(0.0)
        }
    }

    /// What the value rises by on the side where a candidate comes in and what clashes with it is left out, if it rises by so
    /// much on either side without that.
    pub(crate) fn inside(&self, group: u8, inside: f64, outside: f64) -> f64 {
        if group == 0 {
            inside
        } else {
            inside + self.losses[group as usize] - outside.max(0.0)
        }
    }
}

/// The sides of a branch, where a candidate is in and what clashes with it out, and where it is out.
pub(crate) fn sides(matrix: &Matrix, fix: &Fix, candidate: u8) -> [Fix; 2] {
    let mut sides = [*fix; 2];
    sides[0].state[candidate as usize] = State::In;
    let _ = leave_out_clashing(matrix, &mut sides[0]);
    sides[1].state[candidate as usize] = State::Out;
    sides
}

/// The pages of what is in at a node.
pub(crate) fn pages(matrix: &Matrix, fix: &Fix) -> i64 {
    let mut sum = 0i64;
    for a in 0..256 {
        if fix.state[a] == State::In {
            sum = sum.saturating_add(matrix.sizes[a]);
        }
    }
    sum
}
