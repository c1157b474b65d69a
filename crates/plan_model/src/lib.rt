//! Plans over the slots of a block: what they are, which are valid, what they cost, and which cost least.
//!
//! A task is what a planner needs of a block: its slots, edges, rows of each set of slots, and the lists by which it
//! groups and orders. A table of offers gives each slot the ways to read it, each with an order and a price in
//! thousandths of a sequential page read. Plans are trees in the manner of System R's and INUM's: leaves, sorts, merge
//! and hash joins, bushy ones too; a whole plan adds a group step and a final sort. `specs/` says which plans are valid,
//! what they cost, and what a least plan, the task of a block, and the cost of a workload are. Nothing here searches.
//!
//! The types are `Task` with its `TaskEdge`s, the trait `Offers`, `Plan`, `Whole` with its `GroupStep`, `Template`
//! (what INUM keeps of a plan), and `Labels`, by which `plan_text` tells a plan.
//!
//! ```rust
//! // One slot of 1000 rows, which its only offer reads whole for 30000, is to be ordered by a column.
//! let mut whole = Whole {
//!     body: Plan::Leaf { slot: 0, offer: 0 },
//!     group: GroupStep::Nothing,
//!     final_sort: true,
//! };
//! assert_eq!(rt; plan_cost(&task, &offers, &whole), Some(80000)); // with a sort of 5 * 1000 * 10
//! whole.final_sort = false;
//! assert_eq!(rt; plan_cost(&task, &offers, &whole), None); // not in the order that is asked for
//! ```
#![tactic(auto)]

mod checked;
mod edge;
mod judge;
mod labels;
mod laws;
mod lines;
mod offers;
mod order;
mod plan;
mod price;
mod task;
mod template;
mod whole_plan;
mod words;

pub use checked::{are_apart, checked_task};
pub use edge::TaskEdge;
pub use labels::Labels;
pub use laws::{
    best_is_enough, cache_decomposes, cost_splits, costs_are_one, least_is_one, least_never_rises,
    leaves_exchange, plans_exist, raised_lies_between, rents_bound, templates_decompose,
    total_stays_below, weak_duality,
};
pub use lines::plan_text;
pub use offers::Offers;
pub use order::{are_joined, begins_with, crosses, is_column_of, serves};
pub use plan::{GroupStep, MOST_COST, MOST_TOTAL, Plan, Whole};
pub use price::{group_price, hash_price, merge_price, rows_of, sort_price};
pub use task::Task;
pub use template::Template;
pub use whole_plan::plan_cost;
