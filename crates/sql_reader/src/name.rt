//! Reads names, columns and sources.
ghost use Rattle.sql_reader.specs.Grammar as rule;
ghost use Rattle.sql_reader.specs.inner.Reads.{ReadsBy};

use crate::cursor::{Cursor, GrammarReader, Unread};
use crate::{NameUse, Source, TerminalKind};
use sql_tokens::Span;

/// The kinds of names.
pub const NAMES: [TerminalKind; 3] = [
    TerminalKind::Name,
    TerminalKind::Aggregate,
    TerminalKind::Date,
];

/// The names but for DATE.
pub const PLAIN_NAMES: [TerminalKind; 2] = [TerminalKind::Name, TerminalKind::Aggregate];

impl GrammarReader {
    /// A column, behind its first name.
    #[tactic(auto, unfolding(crate::specs::Grammar::after_name))]
    pub fn after_name(self, cursor: &mut Cursor<'_>, first: Span) -> Result<NameUse, Unread>
        ensures { ReadsBy rule.after_name first self cursor.old result cursor.new }
    {
        if !cursor.begins(&[TerminalKind::Point]) {
            return Ok(NameUse {
                qualifier: None,
                name: first,
            });
        }
        cursor.take(&[TerminalKind::Point])?;
        let second = cursor.take(&NAMES)?;
        Ok(NameUse {
            qualifier: Some(first),
            name: second.span,
        })
    }

    /// A column: a name, or a source's name, a point and a name.
    #[tactic(auto, unfolding(crate::specs::Grammar::column))]
    pub fn column(self, cursor: &mut Cursor<'_>) -> Result<NameUse, Unread>
        ensures { ReadsBy rule.column tt self cursor.old result cursor.new }
    {
        let first = cursor.take(&NAMES)?;
        self.after_name(cursor, first.span)
    }

    /// An alias, with or without AS, or none.
    #[tactic(auto, unfolding(crate::specs::Grammar::alias))]
    pub fn alias(self, cursor: &mut Cursor<'_>) -> Result<Option<Span>, Unread>
        ensures { ReadsBy rule.alias tt self cursor.old result cursor.new }
    {
        if cursor.begins(&[TerminalKind::As]) {
            cursor.take(&[TerminalKind::As])?;
            let name = cursor.take(&NAMES)?;
            return Ok(Some(name.span));
        }
        if cursor.begins(&NAMES) {
            let name = cursor.take(&NAMES)?;
            return Ok(Some(name.span));
        }
        Ok(None)
    }

    /// A table with its alias.
    #[tactic(auto, unfolding(crate::specs::Grammar::source))]
    pub fn source(self, cursor: &mut Cursor<'_>) -> Result<Source, Unread>
        ensures { ReadsBy rule.source tt self cursor.old result cursor.new }
    {
        let table = cursor.take(&NAMES)?;
        let alias = self.alias(cursor)?;
        Ok(Source {
            table: table.span,
            alias,
        })
    }
}
