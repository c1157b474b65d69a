//! The ways to read each slot of a block, and the task that a planner gets of the block.
//!
//! A slot is read as a whole table or through an index, one that exists or one of a configuration's candidates. Each way
//! has a price, in thousandths of a sequential page read, and an order that it delivers, as System R's access paths.
//!
//! `task` makes the `Task` of a block, `ConfigOffers` has the ways to read its slots under a configuration, as
//! `plan_model`'s `Offers`, and `labels` their words.
//!
//! ```rust
//! // `SELECT c FROM t ORDER BY c` over 1000 rows on 20 pages, with an index on c, which is column 0.
//! let offers = ConfigOffers::new(alloc, &cat, &block, &[], &Config::none())?;
//! assert_eq!(rt; offers.count(0), 2);
//! assert_eq!(rt; offers.price(0, 0), 30000); // the whole table
//! assert_eq!(rt; offers.price(0, 1), 13000); // the index, which has all that is needed
//! let by_c = [Item::Up { slot: 0, column: 0 }];
//! assert_eq!(rt; offers.order(0, 1), by_c.as_slice());
//! ```
#![tactic(auto)]

mod block_labels;
mod block_task;
mod config_offers;
mod matching;
mod orders;
mod paths;
mod predicates;
mod price;
mod reader;
mod slot_access;
mod slot_offers;

pub use block_labels::labels;
pub use block_task::task;
pub use config_offers::ConfigOffers;
