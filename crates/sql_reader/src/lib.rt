//! The statements of a workload, read by the grammar: a text below 2^32 bytes goes in, and out come its statements or
//! its first fault.
//!
//! `read_workload` walks twice over a text, and makes no list of its tokens. The first walk finds the faults that need
//! no grammar. The second makes each token into a terminal, which is what the grammar looks at, when it comes to it,
//! and reads by rules that `specs/Grammar` lists, with one terminal of look ahead. Names stay spans of the text:
//! whether a table or a column is there is left to the crate above.
//!
//! `Parsed` is a text with its statements. A `ParsedStatement` has a `Body`, which for a SELECT is a `ParsedSelect` of
//! `ParsedItem`s, `Source`s, `Condition`s and `ParsedOrder`s; an `Expr` and a `NameUse` say what columns are used, a
//! `Compare` and a `Literal` what a test compares with. A `SqlFault` says why a text is no workload. `Terminal` and the
//! types beside it are public because the rules speak of them. The other functions are laws of the grammar.
//!
//! ```rust
//! let parsed = read_workload(alloc, b"-- weight 3\nSELECT c FROM t WHERE c IN (1, 2);")?;
//! let first = &parsed.statements.as_slice()[0];
//! assert_eq!(rt; first.weight, 3);
//! assert_eq!(rt; first.place, 13); // counted from 1
//! assert!(rt; matches!(read_workload(alloc, b"SELECT c FROM"), Err(SqlFault::Syntax(14)))); // at the end
//! ```
#![tactic(auto)]

mod change;
mod condition;
mod cursor;
mod expression;
mod item;
mod kind;
mod law;
mod list;
mod literal;
mod name;
mod order;
mod parsed;
mod parsed_text;
mod parts;
mod scan;
mod seen;
mod select;
mod statement;
mod survey;
mod terminal;
mod words;
mod workload;

pub use kind::TerminalKind;
pub use law::{as_printed, one_answer, one_meaning, one_too_many, statements_begin};
pub use parsed::{
    Body, Compare, Condition, Expr, Literal, NameUse, ParsedItem, ParsedOrder, ParsedSelect,
    ParsedStatement, Source, SqlFault,
};
pub use parsed_text::Parsed;
pub use parts::{InsertParts, Progress, UpdateParts};
pub use seen::{ExprForm, Seen};
pub use terminal::{Mark, Terminal};
pub use workload::read_workload;
