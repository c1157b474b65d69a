//! The orders of a slot that some operator above it may want, after System R's interesting orders.
//!
//! In goes a task of `plan_model`; out come the orders of one of its slots, the empty one first, and the number of ways
//! to choose one for each slot. Both take time in proportion to the edges. What the orders are for is left to the
//! planner.
//!
//! An order is a `List` of `adv_base`'s `Item`s.
//!
//! ```rust
//! // The task of `SELECT t.x FROM t, u WHERE t.x = u.y`, where x and y are columns 0.
//! let orders = slot_orders(alloc, &task, 0)?;
//! assert_eq!(rt; orders.len(), 2); // none, and by x
//! let by_x = [Item::Up { slot: 0, column: 0 }];
//! assert_eq!(rt; orders.items.last().map(|order| order.as_slice()), Some(by_x.as_slice()));
//! assert_eq!(rt; combinations(&task), 4);
//! ```
#![tactic(auto)]

mod columns;
mod orders;

pub use orders::{combinations, slot_orders};
