//! A text with its tokens, and the faults of a text that has none.
ghost use Rattle.std.specs.Prelude.{All, AllPairs};
ghost use Rattle.sql_tokens.specs.Span.{LiesIn, StandsBefore};

use crate::Token;
use adv_base::List;
use thiserror::Error;

/// A text and its tokens, in the order of the text.
#[derive(Debug, Drop)]
pub struct Tokens<'a> {
    pub text: &'a [u8],
    pub list: List<Token>,
    /// Each token has at least one byte and lies in the text.
    pub ghost within: { All (LiesIn text.now) list },
    /// A token ends before each later one begins.
    pub ghost in_order: { AllPairs StandsBefore list },
}

/// Why a text has no tokens. A place is the 1-based offset of a byte in the text.
#[derive(Clone, Copy, Debug, PartialEq, Eq, Error)]
pub enum TokenFault {
    /// There was not enough memory for the list.
    #[error("out of memory")]
    Memory,
    /// The byte at this place begins no token and continues none.
    #[error("bad byte at {0}")]
    BadByte(u64),
    /// The text, quoted name or block comment that begins at this place has no end.
    #[error("open text at {0}")]
    OpenText(u64),
}
