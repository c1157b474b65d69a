//! What a search has found so far.
use adv_base::Config;

/// The cheapest configuration met so far with its cost, in thousandths of a page read; the least Lagrangian value of
/// the leaves at which the search gave up, or the greatest number where it nowhere did; and how many nodes were made.
#[derive(Clone, Copy)]
pub(crate) struct Found {
    pub config: Config,
    pub cost: u128,
    pub low: i128,
    pub made: u32,
}
