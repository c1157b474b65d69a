//! One token of a text.

/// A part of a text: the bytes `text[from..to]`, counted from 0. The place of its first byte, as
/// faults name places, counts from 1: it is `from + 1`.
#[derive(Clone, Copy, Debug, PartialEq, Eq)]
pub struct Span {
    pub from: u64,
    pub to: u64,
}

impl Span {
    ghost use Rattle.std.specs.Prelude.{◌≡◌, ◌+◌, ◌<◌, ◌^◌};

    /// The place of the first byte, counted from 1.
    pub fn place(self) -> u64
        requires { self.from + 1 < 2 ^ 64 }
        ensures { result ≡ self.from + 1 }
    {
        self.from + 1
    }
}

/// What a token is.
#[derive(Clone, Copy, Debug, PartialEq, Eq)]
pub enum TokenKind {
    /// A letter or `_`, then letters, digits and `_`: a name or a word of the grammar.
    Word,
    /// A name in double quotes, which are part of its span.
    Quoted,
    /// One or more digits.
    Whole,
    /// Digits, a point and digits, or a point and digits.
    Decimal,
    /// A text in single quotes, which are part of its span; a quote inside is written twice.
    Text,
    /// An operator or a mark, `?`, or a numbered parameter such as `$1`.
    Symbol,
    /// A comment that gives the weight of a statement, from `--` to the last digit.
    Weight,
}

/// A token: its kind and where it stands.
#[derive(Clone, Copy, Debug, PartialEq, Eq)]
pub struct Token {
    pub kind: TokenKind,
    pub span: Span,
}
