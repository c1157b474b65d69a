//! Proposals for a search over CoPhy's programme: a cheap configuration, and sets of multipliers with a plan of the tree that
//! shows that none is cheaper. They are found by a branch and bound over linear relaxations, in `f64`.
//!
//! Nothing here is relied on: whoever takes a proposal checks it in whole numbers. So functions say nothing of what they find;
//! that they end and can't fail is proved.
#![tactic(auto)]

mod again;
mod along_tree;
mod attempts;
mod branching;
mod clashing;
mod configuration;
mod deepening;
mod entering;
mod finding;
mod gains;
mod least_plans;
mod ledger;
mod lifting;
mod own_sets;
mod path;
mod planner;
mod proposals;
mod recalling;
mod rents;
mod retracing;
mod rounding;
mod splitting;
mod thinning;
mod tree;
mod trial;

pub use proposals::{Proposals, Step};
pub use recalling::{Earlier, NewNumbers};
