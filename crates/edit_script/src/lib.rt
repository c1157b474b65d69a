//! Scripts that change a workload step by step and ask for advice.
//!
//! In go bytes; out come the edits that their lines are, in order, or the first line that is none. A line ends with a line
//! feed and is `add W SQL`, `remove N`, `weigh N W` or `advise`: W is a weight from 1 to 10^6, N the number of a statement
//! from 1 to 1000, and SQL one or more bytes. A number is decimal digits without a leading zero, and one space stands
//! between words. There are at most 1000 lines, and at most 16 that ask for advice. `specs/Scripts` says so; that a text has
//! one reading is the law `readings_are_one`. Whether a statement has such a number, and what the SQL says, is left to others.
//!
//! ```rust
//! let edits = read_edits(alloc, b"add 5 SELECT c FROM t\nweigh 1 20\nadvise\n")?;
//! assert_eq!(rt; edits.list.len(), 3);
//! ```
#![tactic(auto)]

mod edit;
mod fault;
mod front;
mod laws;
mod line;
mod script;
#[cfg(test)]
mod tests;

pub use edit::{Edit, Edits, MOST_ADVICES, MOST_LINES};
pub use fault::ScriptFault;
pub use laws::readings_are_one;
pub use script::read_edits;
