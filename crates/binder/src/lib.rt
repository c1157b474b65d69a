//! Turns the names of a workload into numbers.
//!
//! In go a catalogue and the statements that `sql_reader` read of a text; out come statements of numbers, the `Statement`s
//! of `adv_base`, or the first fault with its place, a `BindFault`. On the way a `Directory` finds tables and columns by
//! their names, a `Scope` has the sources of a statement, `Tests` and `Clauses` hold what its clauses mean, and a `Block`
//! comes of them. `specs/Statements.antt` says what a text means, and from there each clause has a file of its own.
//!
//! Over a catalogue whose first table, `t`, has the columns `a`, `b`, `d` and `s`, where `parsed` was read of
//! `SELECT s FROM t ORDER BY b`:
//!
//! ```rust
//! let statements = bind(alloc, &cat, &parsed)?;
//! if let Work::Select(block) = &statements.as_slice()[0].work {
//!     let slot = &block.slots.as_slice()[0];
//!     assert_eq!(rt; slot.table, 0);
//!     assert_eq!(rt; slot.needed.as_slice(), &[1, 3]);
//!     assert_eq!(rt; block.order.as_slice(), &[Item::Up { slot: 0, column: 1 }]);
//! }
//! ```
#![tactic(auto)]

mod changes;
mod conditions;
mod directory;
mod fault;
mod gathered;
mod index;
mod items;
mod joins;
mod lists;
mod meaning;
mod names;
mod needed;
mod orders;
mod scope;
mod select;
mod sources;
mod statements;
mod values;

pub use fault::BindFault;
pub use statements::bind;
