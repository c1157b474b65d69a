//! The terminals of a text: its tokens as the grammar sees them.

ghost use Rattle.std.specs.Prelude.{pos, neg_ℤ, ◌<◌, ◌<ℤ◌, ◌^◌};
ghost use Rattle.std.specs.Option.{ForSome};

use crate::TerminalKind;
use sql_tokens::Span;

/// The last weight comment before a token: its place in the text, 0 where there is none, and its weight.
#[derive(Clone, Copy)]
pub struct Mark {
    pub place: u64,
    pub weight: u32,
}

/// A terminal symbol of the grammar: a token as it sees it. `number` is the number of a whole number of at most 18
/// digits, and the day of a text that holds a date, in days since 1970-01-01.
#[derive(Clone, Copy)]
pub struct Terminal {
    pub kind: TerminalKind,
    pub span: Span,
    pub number: Option<i64>,
    pub mark: Mark,
    /// The number has at most 18 digits.
    pub ghost least: { ForSome number (λ n. neg_ℤ (pos (10 ^ 18)) <ℤ n) },
    pub ghost most: { ForSome number (λ n. n <ℤ pos (10 ^ 18)) },
    /// Places fit 32 bits.
    pub ghost placed: { span.from < 2 ^ 32 },
}
