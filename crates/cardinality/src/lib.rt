//! How many rows a statement reads: the selectivity of each predicate and join edge of a block, the rows of each slot
//! after its predicates, and the rows of the join of each set of slots.
//!
//! Selectivities are parts of 10^9, from 1 to 10^9, by a table of factors in the manner of System R's. Numbers of rows
//! go from 1 to 10^12. The definitions that the contracts cite stand in `adv_base`.
//!
//! Catalogues and blocks are `adv_base`'s; `Rows` has the rows of each set of slots, at the number whose binary digit s
//! is slot s.
//!
//! ```rust
//! // `SELECT c FROM t WHERE a = 1`, where t has 1000 rows, and 10 values in a.
//! for pred in block.preds.items.iter() {
//!     assert_eq!(rt; part_of(&cat, &block, pred), 100000000);
//! }
//! assert_eq!(rt; slot_rows(&cat, &block, 0), 100);
//! let rows = rows_table(alloc, &cat, &block)?;
//! assert_eq!(rt; rows.of.as_slice(), [1, 100].as_slice());
//! ```
#![tactic(auto)]

mod groups;
mod parts;
mod range;
mod rows;
mod shares;
mod sums;
mod table;
#[cfg(test)]
mod tests;
mod ties;

pub use groups::group_rows;
pub use parts::{edge_part, part_of};
pub use rows::{slot_rows, table_pages, table_rows};
pub use table::{Rows, rows_table};
