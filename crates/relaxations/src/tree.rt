//! The tree of the search for a configuration, kept for the plan.

use adv_base::NoMemory;
use bip_model::{Fix, State};
use interior_point::append;
use std::alloc::Global;
use std::num::saturating_f64_to_i64;

/// The most nodes: as many as a search has where nothing is said.
pub(crate) const MOST_NODES: usize = 20_000;
/// In place of a candidate where a node has no branch.
pub(crate) const NO_BRANCH: u16 = u16::MAX;
/// In place of a node where there is none.
pub(crate) const NO_NODE: u32 = u32::MAX;

/// Some candidates, counted from 0, a bit for each.
pub(crate) type Marks = [u64; 4];

/// Marks a candidate.
fn mark(marks: &mut Marks, candidate: usize) {
    marks[(candidate / 64) % 4] |= 1u64 << (candidate % 64);
}

/// Whether a candidate is marked.
pub(crate) fn is_marked(marks: &Marks, candidate: usize) -> bool {
    marks[(candidate / 64) % 4] & (1u64 << (candidate % 64)) != 0
}

/// The number of a place.
fn number_of(place: usize) -> u32 {
    (place & 0x7fff_ffff) as u32
}

/// The candidates of a state.
fn marks_of(fix: &Fix, state: State) -> Marks {
    let mut marks = [0; 4];
    for a in 0..256 {
        if fix.state[a] == state {
            mark(&mut marks, a);
        }
    }
    marks
}

/// A node: what is in and out there, as found when it was made and, once it was visited, after its fixings; the candidate of
/// its branch, counted from 0, with the sides where this is in and out; its bound, whether nothing cheaper is below it; and the
/// node above.
#[derive(Clone, Copy)]
pub(crate) struct TreeNode {
    pub inside: Marks,
    pub outside: Marks,
    pub branch: u16,
    pub sides: [u32; 2],
    pub bound: f64,
    pub is_closed: bool,
    pub parent: u32,
}

impl TreeNode {
    /// A node without a branch.
    fn new(fix: &Fix, bound: f64, parent: u32) -> TreeNode {
        TreeNode {
            inside: marks_of(fix, State::In),
            outside: marks_of(fix, State::Out),
            branch: NO_BRANCH,
            sides: [NO_NODE; 2],
            bound,
            is_closed: false,
            parent,
        }
    }

    /// The node's states.
    pub(crate) fn fix(&self) -> Fix {
        let mut fix = Fix::free();
        for a in 0..256 {
            if is_marked(&self.inside, a) {
                fix.state[a] = State::In;
            } else if is_marked(&self.outside, a) {
                fix.state[a] = State::Out;
            }
        }
        fix
    }
}

/// The nodes, from the root on.
#[derive(Drop)]
pub(crate) struct Tree {
    pub nodes: Vec<TreeNode>,
}

impl Tree {
    /// All memory of a tree. Want of memory is the one error.
    pub(crate) fn new(alloc: Global) -> Result<Tree, NoMemory> {
        Ok(Tree {
            nodes: Vec::with_capacity(alloc, MOST_NODES)?,
        })
    }

    /// Begins with a root.
    pub(crate) fn begin(&mut self, root: &Fix) {
        self.nodes.clear();
        append(
            &mut self.nodes,
            TreeNode::new(root, f64::NEG_INFINITY, NO_NODE),
        );
    }

    /// The open node of the least bound, of these the last.
    pub(crate) fn least(&self) -> Option<usize> {
        let mut least = f64::INFINITY;
        let mut best = None;
        for (at, node) in self.nodes.iter().enumerate() {
            if !node.is_closed && node.branch == NO_BRANCH && node.bound <= least {
                least = node.bound;
                best = Some(at);
            }
        }
        best
    }

    /// The bound of a node.
    pub(crate) fn bound(&self, place: usize) -> f64 {
        match self.nodes.get(place) {
            Some(node) => node.bound,
            None => f64::INFINITY,
        }
    }

    /// What a plan along the tree may show: that nothing is cheaper than a cost, or, where something is left open, its bound.
    pub(crate) fn reach(&self, cost: i128) -> i128 {
        let bound = match self.least() {
            Some(open) => self.bound(open),
            None => f64::INFINITY,
        };
        let whole = saturating_f64_to_i64(bound.floor());
        if whole < 0 || whole == i64::MAX {
            cost
        } else {
            cost.min(whole as i128)
        }
    }

    /// Whether there is no room for the sides of a branch.
    pub(crate) fn is_full(&self) -> bool {
        self.nodes.len() > MOST_NODES - 2
    }

    /// Writes what a visit of a node found.
    pub(crate) fn write(&mut self, at: usize, fix: &Fix, bound: f64, is_closed: bool) {
        if at < self.nodes.len() {
            let node = &mut self.nodes[at];
            node.inside = marks_of(fix, State::In);
            node.outside = marks_of(fix, State::Out);
            node.bound = bound;
            node.is_closed = is_closed;
        }
    }

    /// Appends a side of a branch.
    fn append_side(&mut self, at: usize, fix: &Fix, bound: f64) -> u32 {
        let place = number_of(self.nodes.len());
        append(&mut self.nodes, TreeNode::new(fix, bound, number_of(at)));
        place
    }

    /// Branches on a candidate, with the states of the sides where it is in and out; the place of the first, before the other.
    pub(crate) fn branch(
        &mut self,
        at: usize,
        candidate: u8,
        fixes: &[Fix; 2],
        bound: f64,
    ) -> usize {
        let inside = self.append_side(at, &fixes[0], bound);
        let outside = self.append_side(at, &fixes[1], bound);
        if at < self.nodes.len() {
            self.nodes[at].branch = candidate as u16;
            self.nodes[at].sides = [inside, outside];
        }
        inside as usize
    }

    /// Closes the open nodes whose bound reaches a target.
    pub(crate) fn close(&mut self, target: f64) {
        for node in self.nodes.iter_mut() {
            if node.branch == NO_BRANCH && !node.is_closed {
                node.is_closed = node.bound >= target;
            }
        }
    }
}
