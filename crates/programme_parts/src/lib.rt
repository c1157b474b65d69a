//! The parts of CoPhy's programme, over INUM's caches.
//!
//! In go a block of a statement, the cache of plans of its task, and candidate indexes. Out comes the statement's part of
//! the programme: the templates that the cache keeps, and for each slot and each of its interesting orders the least price
//! of the table and the indexes that exist, and a grant for each candidate on the table, in increasing number, with its
//! price for each order that it gives. The parts of all statements make the programme. Prices are in thousandths of a
//! sequential page read. When caches and parts are made, and which are kept, is left to others.
//!
//! ```rust
//! let cache = block_cache(alloc, setting.cat, block)?;
//! let part = part(alloc, &setting, 1, 10, block, &cache)?;
//! assert_eq!(rt; part.slots[0].base.as_slice(), [Some(30000), None].as_slice()); // the table gives no order
//! ```
#![tactic(auto)]

mod caches;
mod every;
mod laws;
mod parts;
mod slot_reader;
mod slots;
mod whole;

pub use caches::{block_cache, statement_cache};
pub use laws::{blocks_have_one_count, programmes_are_one};
pub use parts::{part, push_statement};
pub use whole::programme_with_parts;
