//! By how much a Lagrangian value rises at least on either side of a branch, and which branch promises most.

use crate::clashing::GroupShares;
use crate::ledger::{Each, Ledger};
use crate::path::Path;
use crate::tree::{TreeNode, is_marked};
use interior_point::{Matrix, at, float_of, put};

/// What both sides of a branch on each candidate gain at least, where it is left out and where it comes in; and the
/// candidates by size.
#[derive(Drop)]
pub(crate) struct Gains {
    pub outside: Each,
    pub inside: Each,
    by_size: [u8; 256],
}

/// The part of a number in what is needed, at most 1.
fn part_of(gain: i128, need: i128) -> f64 {
    float_of(gain.min(need)) / float_of(need.max(1))
}

impl Gains {
    pub(crate) const BLANK: Gains = Gains {
        outside: [0; 256],
        inside: [0; 256],
        by_size: [0; 256],
    };

    /// Orders the candidates of a matrix by size.
    pub(crate) fn begin(&mut self, matrix: &Matrix) {
        for a in 0..256 {
            let mut hole = a;
            for back in 1..a + 1 {
                let other = at(&self.by_size, a - back, 0);
                if matrix.sizes[other as usize] <= matrix.sizes[a] {
                    break;
                }
                put(&mut self.by_size, hole, other);
                hole = a - back;
            }
            put(&mut self.by_size, hole, (a & 255) as u8);
        }
    }

    /// Writes what both sides gain at the end of a path under a set, of which the value there was found. What comes in leaves
    /// less room to others.
    pub(crate) fn write(&mut self, matrix: &Matrix, path: &Path, ledger: &mut Ledger) {
        ledger.write_losses(matrix, &mut self.outside);
        let mut end = 256usize;
        let mut lost = 0i128;
        for a in self.by_size {
            let a = a as usize;
            if !path.is_open(a) {
                continue;
            }
            let room = path.room.saturating_sub(matrix.sizes[a]);
            for _other in 0..256 {
                let last = end.saturating_sub(1);
                let b = at(&self.by_size, last, 0) as usize;
                if end == 0 || matrix.sizes[b] <= room {
                    break;
                }
                if path.is_open(b) {
                    lost = lost.wrapping_sub(ledger.terms[b].min(0));
                }
                end = last;
            }
            let mut others = lost;
            if matrix.sizes[a] > room {
                others = others.wrapping_add(ledger.terms[a].min(0));
            }
            self.inside[a] = ledger.terms[a].max(0).wrapping_add(others);
        }
    }

    /// What the groups of the candidates have that may come in, where so much is needed.
    fn group_shares(&self, path: &Path, ledger: &Ledger, need: i128) -> GroupShares {
        let mut found = GroupShares::BLANK;
        for a in 0..256 {
            if path.group(a) != 0 && path.is_choice(a) {
                let outside = part_of(self.outside[a], need);
                found.add(path.group(a), ledger.shares[a], outside);
            }
        }
        found
    }

    /// What a branch on a candidate of a group promises, where so much is needed and a relaxation takes so much of the
    /// candidate.
    fn promise(&self, a: usize, need: i128, share: f64, group: u8, shares: &GroupShares) -> f64 {
        let outside = part_of(at(&self.outside, a, 0), need);
        let inside = part_of(at(&self.inside, a, 0), need);
        let inside = shares.inside(group, inside, outside).min(1.0);
        let excess = shares.excess(group, share);
        let doubt = share.min(1.0 - share).max(excess);
        20.0 * outside.min(inside) + 3.0 * outside.max(inside) + 120.0 * doubt
    }

    /// The open candidate with a clash that gains most where it is left out, if one gains.
    pub(crate) fn best_clash(&self, path: &Path) -> Option<usize> {
        let mut best = None;
        let mut most = 0;
        for a in 0..256 {
            if self.outside[a] > most && path.is_open(a) && path.is_clash(a) {
                most = self.outside[a];
                best = Some(a);
            }
        }
        best
    }

    /// The open candidate without a clash whose branch promises most, under a set with which so much is needed; those first
    /// that are fixed at a node of the tree.
    pub(crate) fn choice(
        &self,
        path: &Path,
        ledger: &Ledger,
        need: i128,
        wanted: Option<&TreeNode>,
    ) -> Option<usize> {
        let shares = self.group_shares(path, ledger, need);
        let mut best = None;
        let mut most = f64::NEG_INFINITY;
        for a in 0..256 {
            if !path.is_choice(a) {
                continue;
            }
            let mut promise = self.promise(a, need, ledger.shares[a], path.group(a), &shares);
            if let Some(node) = wanted {
                if is_marked(&node.inside, a) {
                    promise = 1e7 + part_of(self.outside[a], need);
                } else if is_marked(&node.outside, a) {
                    promise = 1e7 + part_of(self.inside[a], need);
                }
            }
            if promise > most {
                most = promise;
                best = Some(a);
            }
        }
        best
    }
}
