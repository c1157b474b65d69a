//! The lexemes that a text is cut into: tokens, and what stands between them.

use crate::TokenKind;

/// What a lexeme of a text is.
#[derive(Clone, Copy, Debug, PartialEq, Eq)]
pub enum Form {
    /// A space, tab, line feed or carriage return.
    Blank,
    /// A comment from `--` to the end of the line.
    LineComment,
    /// A comment from `/*` to `*/`.
    BlockComment,
    /// A token other than a weight.
    Token(TokenKind),
}

/// The lexeme at the front of a text: its form and how many bytes it has.
#[derive(Clone, Copy, Debug, PartialEq, Eq)]
pub struct Lexeme {
    pub form: Form,
    pub length: usize,
}

/// Why no lexeme stands at the front of a text.
#[derive(Clone, Copy, Debug, PartialEq, Eq)]
pub enum NoLexeme {
    /// The byte behind so many others begins no token and continues none.
    BadByte(usize),
    /// What begins there has no end.
    OpenText,
}
