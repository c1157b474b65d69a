//! What a search answers.
use crate::multipliers::Multipliers;
use adv_base::{Config, List};

/// A node of a search tree. A tree is a list of nodes in preorder, the side that takes a branch's candidate in before the
/// side that leaves it out.
#[derive(Clone, Copy, Debug, PartialEq, Eq)]
pub enum Node {
    /// The candidate of this number, from 1, is in on one side and out on the other.
    Branch(u16),
    /// A leaf whose Lagrangian value under the set of multipliers of this number bounds all below it: 0 is the set of
    /// zeros, k the k-th of an answer's sets.
    Bounded(u8),
    /// A leaf whose in-candidates don't fit the budget, so that nothing below it does.
    Overfull,
}

/// The answer of a search: a configuration that fits the budget, what the workload costs under it, what no fitting
/// configuration costs less than, the sets of multipliers (at most 16) and the tree (at most 10^6 nodes) that show it, and
/// how many candidates may be of use. Costs are in thousandths of a page read.
#[derive(Debug, Drop)]
pub struct Answer {
    pub config: Config,
    pub cost: u128,
    pub bound: i128,
    pub sets: List<Multipliers>,
    pub tree: List<Node>,
    pub useful: u32,
}
