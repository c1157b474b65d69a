//! Least plans of a task over tables of offers.
//!
//! The search goes bottom up, as System R's does. For each set of slots, and each front of an order that an operator
//! above can want, it keeps what the cheapest plan of that set costs whose order begins so. Join trees may be bushy. What
//! depends on the task alone, as the cuts of each set with what joining their parts costs, is found once, so that costs
//! over many tables of offers are found fast; a plan is built at the end, from what gives each cost.
//!
//! `least` answers a `Found`: a plan and its cost. A `Search` answers costs alone, again and again.
//!
//! ```rust
//! // `SELECT c FROM t ORDER BY c`: the table costs 30000 and a sort of it 50000, an index on c 13000.
//! let found = least(alloc, &task, &offers)?;
//! assert_eq!(rt; found.cost, 13000);
//! assert_eq!(rt; plan_cost(&task, &offers, &found.plan), Some(13000));
//! let mut search = Search::new(alloc, &task)?;
//! assert_eq!(rt; search.cost(&offers), 13000);
//! ```
#![tactic(auto)]

mod again;
mod build;
mod cell;
mod cuts;
mod fill;
mod found;
mod front;
mod join;
mod make;
mod needs;
mod read;
mod row;
mod search;
mod ways;
mod whole;

pub use cuts::{Cut, Merge};
pub use found::{Found, least};
pub use front::{Front, Link, can_sort, has_front, longer, serves};
pub use make::ways_of;
pub use row::{cuts_at, merges_at};
pub use search::Search;
pub use ways::Ways;
pub use whole::{final_cost, is_nil};
