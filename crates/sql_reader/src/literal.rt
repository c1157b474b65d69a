//! Reads the values of tests.
ghost use Rattle.sql_reader.specs.Grammar as rule;
ghost use Rattle.sql_reader.specs.inner.Reads.{ReadsBy};
ghost use Rattle.sql_reader.specs.inner.Room as room;
ghost use Rattle.sql_reader.specs.Values as values;
ghost use Rattle.std.specs.Prelude.{◌≡◌, pos, neg_ℤ, ◌<ℤ◌, ◌^◌};

use crate::cursor::{Cursor, GrammarReader, Unread};
use crate::{Compare, Literal, Terminal, TerminalKind};

/// The literals of one terminal.
pub const LITERALS: [TerminalKind; 6] = [
    TerminalKind::Whole,
    TerminalKind::Decimal,
    TerminalKind::Text,
    TerminalKind::Day,
    TerminalKind::Null,
    TerminalKind::Question,
];

/// The signs.
pub const SIGNS: [TerminalKind; 2] = [TerminalKind::Plus, TerminalKind::Minus];

/// The comparisons.
pub const COMPARISONS: [TerminalKind; 4] = [
    TerminalKind::Equal,
    TerminalKind::NotEqual,
    TerminalKind::Below,
    TerminalKind::Above,
];

/// The number with its sign turned.
fn negated(number: i64) -> i64
    requires { neg_ℤ (pos (10 ^ 18)) <ℤ number }
    ensures { result ≡ neg_ℤ number }
{
    -number
}

impl Terminal {
    /// The literal that the terminal is, where no DATE stands before it.
    pub fn literal(self) -> Literal
        ensures { result ≡ values.literal_of self }
    {
        match self.kind {
            TerminalKind::Whole => match self.number {
                Some(number) => Literal::Whole(number),
                None => Literal::Other,
            },
            TerminalKind::Text | TerminalKind::Day => Literal::Text(self.span),
            _ => Literal::Other,
        }
    }

    /// The literal that the terminal is behind a sign.
    pub fn signed_literal(self, sign: TerminalKind) -> Literal
        ensures { result ≡ values.signed sign self }
    {
        match sign {
            TerminalKind::Minus => match self.kind {
                TerminalKind::Whole => match self.number {
                    Some(number) => Literal::Whole(negated(number)),
                    None => Literal::Other,
                },
                _ => self.literal(),
            },
            _ => self.literal(),
        }
    }

    /// The day that the terminal holds, behind DATE.
    pub fn day(self) -> Literal
        ensures { result ≡ values.day_literal self }
    {
        Literal::Day(self.number.unwrap_or(0))
    }
}

impl TerminalKind {
    /// The comparison that the kind is.
    pub fn compare(self) -> Compare
        ensures { result ≡ values.compare_of self }
    {
        match self {
            TerminalKind::Equal => Compare::Equal,
            TerminalKind::NotEqual => Compare::NotEqual,
            TerminalKind::Below => Compare::Below,
            _ => Compare::Above,
        }
    }
}

impl Compare {
    /// The comparison with its sides turned round.
    pub fn turned(self) -> Compare
        ensures { result ≡ values.turned self }
    {
        match self {
            Compare::Equal => Compare::Equal,
            Compare::NotEqual => Compare::NotEqual,
            Compare::Below => Compare::Above,
            Compare::Above => Compare::Below,
        }
    }
}

impl GrammarReader {
    /// A value that doesn't begin with DATE.
    #[tactic(auto, unfolding(crate::specs::Grammar::plain_value))]
    pub fn plain_value(self, cursor: &mut Cursor<'_>) -> Result<Literal, Unread>
        ensures reads { ReadsBy rule.plain_value tt self cursor.old result cursor.new }
        ensures left { room.TakesSome result cursor.old cursor.new }
    {
        if cursor.begins(&SIGNS) {
            let sign = cursor.take(&SIGNS)?;
            let number = cursor.take(&[TerminalKind::Whole, TerminalKind::Decimal])?;
            return Ok(number.signed_literal(sign.kind));
        }
        let terminal = cursor.take(&LITERALS)?;
        Ok(terminal.literal())
    }

    /// A value.
    #[tactic(auto, unfolding(crate::specs::Grammar::value))]
    pub fn value(self, cursor: &mut Cursor<'_>) -> Result<Literal, Unread>
        ensures reads { ReadsBy rule.value tt self cursor.old result cursor.new }
        ensures left { room.TakesSome result cursor.old cursor.new }
    {
        if cursor.begins(&[TerminalKind::Date]) {
            cursor.take(&[TerminalKind::Date])?;
            let day = cursor.take(&[TerminalKind::Day])?;
            return Ok(day.day());
        }
        self.plain_value(cursor)
    }
}
