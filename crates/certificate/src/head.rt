//! What a certificate says before its tree.

use crate::cert::SparseSet;
use adv_base::List;

/// A certificate's fields but the tree, and where the tree stands in the text: how many nodes it has, how many bytes stand
/// before the line of the first, and how many lines.
#[derive(Debug, Drop)]
pub struct Head {
    /// The version of the format, 1 or 2.
    pub version: u8,
    pub budget: u64,
    pub config: List<u16>,
    pub cost: u128,
    pub bound: i128,
    pub sets: List<SparseSet>,
    pub nodes: u32,
    pub tree_at: u64,
    pub lines: u32,
}
