//! What a workload says, with the places of its names.

use adv_base::List;
use sql_tokens::Span;
use thiserror::Error;

/// A name in a statement, perhaps behind the name of a source and a point: `column` or `source.column`.
#[derive(Clone, Copy, Debug, PartialEq, Eq)]
pub struct NameUse {
    pub qualifier: Option<Span>,
    pub name: Span,
}

/// What an expression uses: its columns in written order, and the number of its calls of `*`. `plain` says
/// that it is exactly a column, `aggregate` that it calls an aggregate, and `ordinal` is its number where it
/// is a whole number alone, below 2^32.
#[derive(Debug, Drop)]
pub struct Expr {
    pub uses: List<NameUse>,
    pub stars: u32,
    pub plain: bool,
    pub aggregate: bool,
    pub ordinal: Option<u32>,
}

/// One item of a select list: `*`, `source.*`, or an expression with its alias.
#[derive(Debug, Drop)]
pub enum ParsedItem {
    Star,
    SlotStar(Span),
    Made { expr: Expr, alias: Option<Span> },
}

/// A table with its alias.
#[derive(Clone, Copy, Debug, PartialEq, Eq)]
pub struct Source {
    pub table: Span,
    pub alias: Option<Span>,
}

/// The value of a test: a whole number of at most 18 digits with its sign, a day in days since 1970-01-01,
/// a text, or a value without statistics.
#[derive(Clone, Copy, Debug, PartialEq, Eq)]
pub enum Literal {
    Whole(i64),
    Day(i64),
    Text(Span),
    Other,
}

/// How a test compares. `Below` is `<` and `<=`, `Above` is `>` and `>=`.
#[derive(Clone, Copy, Debug, PartialEq, Eq)]
pub enum Compare {
    Equal,
    NotEqual,
    Below,
    Above,
}

/// One test of ON or WHERE. A comparison with the value on the left is turned round.
#[derive(Clone, Copy, Debug, PartialEq, Eq)]
pub enum Condition {
    Compared(NameUse, Compare, Literal),
    Tied(NameUse, NameUse),
    Between(NameUse, Literal, Literal),
    OneOf(NameUse, u32),
    Like(NameUse),
    IsNull(NameUse),
    NotNull(NameUse),
}

/// An item of ORDER BY; `down` says DESC.
#[derive(Debug, Drop)]
pub struct ParsedOrder {
    pub expr: Expr,
    pub down: bool,
}

/// A SELECT. The tests of ON and WHERE stand in written order, and `having` are the columns of HAVING.
#[derive(Debug, Drop)]
pub struct ParsedSelect {
    pub distinct: bool,
    pub items: List<ParsedItem>,
    pub sources: List<Source>,
    pub conditions: List<Condition>,
    pub group: List<NameUse>,
    pub having: List<NameUse>,
    pub order: List<ParsedOrder>,
}

/// What a statement does. `uses` are the columns of the expressions in VALUES or on the right of SET.
#[derive(Debug, Drop)]
pub enum Body {
    Select(ParsedSelect),
    Insert {
        table: Span,
        columns: List<NameUse>,
        uses: List<NameUse>,
        rows: u64,
    },
    Update {
        source: Source,
        columns: List<NameUse>,
        uses: List<NameUse>,
        conditions: List<Condition>,
    },
    Delete {
        source: Source,
        conditions: List<Condition>,
    },
}

/// A statement: the place of its first token, its weight, and what it does.
#[derive(Debug, Drop)]
pub struct ParsedStatement {
    pub place: u64,
    pub weight: u32,
    pub body: Body,
}

/// Why a text is no workload. A place is the 1-based offset of a token's first byte; the end of a text of
/// n bytes has place n + 1.
#[derive(Clone, Copy, Debug, PartialEq, Eq, Error)]
pub enum SqlFault {
    /// There was not enough memory.
    #[error("out of memory")]
    Memory,
    /// The byte at this place begins no token and continues none.
    #[error("bad byte at {0}")]
    BadByte(u64),
    /// The text, quoted name or comment that begins at this place has no end.
    #[error("open text at {0}")]
    OpenText(u64),
    /// No workload goes on with the token at this place.
    #[error("syntax at {0}")]
    Syntax(u64),
    /// No workload goes on with the word at this place, which begins a form that is left out.
    #[error("unsupported at {0}")]
    Unsupported(u64),
    /// The weight comment at this place has a number that isn't 1 to 10^6.
    #[error("bad weight at {0}")]
    BadWeight(u64),
    /// The 1001st statement begins at this place.
    #[error("more than 1000 statements at {0}")]
    TooManyStatements(u64),
}
