//! A sweep over space budgets: what a workload costs under the best candidates for each of several budgets, a curve that
//! tells what more space would buy, with a proved bound at each point.
//!
//! In go a programme, the candidates that it is of, the first budget in pages, the step from one to the next, how many
//! there are, and the nodes that each search may have; out come as many `Point`s of `bip_model`. `specs/` says what these
//! are, and `laws` what they tell: a set that fits a budget fits a larger one, so the least cost so far is a cost at each
//! point, and the greatest bound from there on a bound. Searching is `branch_bound`'s, from the greatest budget to the
//! least, each search on with what the one before found. Costs and bounds are in thousandths of a sequential page read.
//!
//! ```rust
//! // Two statements of weights 10 and 11, which cost 80000 each, and 13000 and 14000 with candidates 1 and 2, of 3 and 4
//! // pages; `shapes` are both candidates.
//! let points = sweep(alloc, &programme, &shapes, 0, 3, 4, 20000)?;
//! assert_eq!(rt; points.as_slice()[1].best, 1010000); // 10 * 13000 + 11 * 80000
//! assert_eq!(rt; points.as_slice()[3].low, 284000); // both, at 9 pages
//! ```
#![tactic(auto)]

mod laws;
mod passes;
mod searching;
mod sweeping;

pub use laws::{curves_bound, curves_fall};
pub use sweeping::sweep;
