//! Statements that are half read.

use crate::{Condition, NameUse, ParsedStatement, Seen, Source};
use adv_base::List;
use sql_tokens::Span;

/// An INSERT so far.
#[derive(Drop)]
pub struct InsertParts {
    pub table: Span,
    pub columns: List<NameUse>,
    pub found: Seen,
    pub rows: u64,
}

/// An UPDATE so far.
#[derive(Drop)]
pub struct UpdateParts {
    pub source: Source,
    pub columns: List<NameUse>,
    pub found: Seen,
    pub conditions: List<Condition>,
}

/// A workload so far: its statements, and the place of the last one's first token, 0 where there is none.
#[derive(Drop)]
pub struct Progress {
    pub statements: List<ParsedStatement>,
    pub before: u64,
}
