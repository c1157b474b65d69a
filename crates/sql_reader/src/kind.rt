//! The kinds of terminals that the grammar tells apart.

/// What the grammar sees of a token: a reserved word, a symbol, a name or a literal. Tokens that the
/// grammar treats alike share a kind.
#[derive(Clone, Copy)]
pub enum TerminalKind {
    All,
    And,
    As,
    Asc,
    Between,
    By,
    Delete,
    Desc,
    Distinct,
    From,
    Group,
    Having,
    In,
    Inner,
    Insert,
    Into,
    Is,
    Join,
    Like,
    Limit,
    Not,
    Null,
    Offset,
    On,
    Order,
    Select,
    Set,
    Update,
    Values,
    Where,
    /// A reserved word that no statement of the grammar has, such as `UNION`.
    LeftOut,
    /// `(`
    Open,
    /// `)`
    Close,
    Comma,
    Point,
    Semicolon,
    Star,
    Plus,
    Minus,
    /// `/`, `%` or `||`
    Operator,
    Equal,
    /// `<>` or `!=`
    NotEqual,
    /// `<` or `<=`
    Below,
    /// `>` or `>=`
    Above,
    /// `?` or a numbered parameter
    Question,
    /// A name that is neither of the next two: a word that isn't reserved, or a quoted name.
    Name,
    /// The name of an aggregate function: `COUNT`, `SUM`, `MIN`, `MAX` or `AVG`.
    Aggregate,
    /// The word `DATE`, a name too.
    Date,
    /// One or more digits.
    Whole,
    Decimal,
    /// A text that holds no date.
    Text,
    /// A text that holds a date.
    Day,
}

impl TerminalKind {
    ghost use Rattle.std.specs.Prelude.{◌≡◌};
    ghost use Rattle.sql_reader.specs.Kinds.{code_of};

    /// The number of the kind.
    pub fn code(self) -> u8
        ensures { result ≡ code_of self }
    {
        self as u8
    }
}
