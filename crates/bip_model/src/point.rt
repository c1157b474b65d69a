//! What a sweep over budgets says of one of them.
use crate::answer::Answer;

/// A point of a sweep over budgets: the budget in pages, the answer of a search at it, the least cost of the answers at
/// this and all smaller budgets of the sweep, and the greatest bound of those at this and all larger ones. A set that fits
/// a smaller budget fits a larger one, so some set that fits costs `best`, and every set that fits costs at least `low`.
/// Costs are in thousandths of a page read.
#[derive(Debug, Drop)]
pub struct Point {
    pub budget: u64,
    pub answer: Answer,
    pub best: u128,
    pub low: i128,
}
