//! Reads a SELECT.
ghost use Rattle.sql_reader.specs.Grammar as rule;
ghost use Rattle.sql_reader.specs.inner.Reads.{AddsBy, ReadsBy};
ghost use Rattle.sql_reader.specs.inner.Room as room;
ghost use Rattle.std.specs.Prelude.{◌≡◌};

use crate::cursor::{Cursor, GrammarReader, Unread};
use crate::list::push;
use crate::literal::COMPARISONS;
use crate::{NameUse, ParsedSelect, Seen, TerminalKind};
use adv_base::List;
use std::alloc::Global;

impl ParsedSelect {
    ghost use Rattle.sql_reader.specs.Values.{empty_select};

    /// A SELECT of which nothing is read.
    fn new(alloc: Global) -> ParsedSelect
        ensures { result ≡ empty_select }
    {
        ParsedSelect {
            distinct: false,
            items: List::new(alloc),
            sources: List::new(alloc),
            conditions: List::new(alloc),
            group: List::new(alloc),
            having: List::new(alloc),
            order: List::new(alloc),
        }
    }
}

impl GrammarReader {
    /// ALL or DISTINCT, perhaps.
    #[tactic(auto, unfolding(crate::specs::Grammar::quantifier))]
    fn quantifier(self, cursor: &mut Cursor<'_>, select: &mut ParsedSelect) -> Result<(), Unread>
        ensures { AddsBy rule.quantifier select.old self cursor.old result select.new cursor.new }
    {
        if cursor.begins(&[TerminalKind::All]) {
            cursor.take(&[TerminalKind::All])?;
            return Ok(());
        }
        if !cursor.begins(&[TerminalKind::Distinct]) {
            return Ok(());
        }
        cursor.take(&[TerminalKind::Distinct])?;
        select.distinct = true;
        Ok(())
    }

    /// A source, put behind those before.
    #[tactic(auto, unfolding(crate::specs::Grammar::one_source))]
    fn one_source(self, cursor: &mut Cursor<'_>, select: &mut ParsedSelect) -> Result<(), Unread>
        ensures { AddsBy rule.one_source select.old self cursor.old result select.new cursor.new }
    {
        let source = self.source(cursor)?;
        push(&mut select.sources, source)
    }

    /// JOIN, perhaps behind INNER.
    #[tactic(auto, unfolding(crate::specs::Grammar::join_word))]
    fn join_word(self, cursor: &mut Cursor<'_>, select: &ParsedSelect) -> Result<(), Unread>
        ensures { AddsBy rule.join_word select.now self cursor.old result select.now cursor.new }
    {
        if cursor.begins(&[TerminalKind::Inner]) {
            cursor.take(&[TerminalKind::Inner])?;
        }
        cursor.take(&[TerminalKind::Join])?;
        Ok(())
    }

    /// ON and its tests.
    #[tactic(auto, unfolding(crate::specs::Grammar::on_part))]
    fn on_part(self, cursor: &mut Cursor<'_>, select: &mut ParsedSelect) -> Result<(), Unread>
        ensures { AddsBy rule.on_part select.old self cursor.old result select.new cursor.new }
    {
        cursor.take(&[TerminalKind::On])?;
        self.conditions(cursor, &mut select.conditions)
    }

    /// A joined source with its tests.
    #[tactic(auto, unfolding(crate::specs::Grammar::joined_source))]
    fn joined_source(self, cursor: &mut Cursor<'_>, select: &mut ParsedSelect) -> Result<(), Unread>
        ensures { AddsBy rule.joined_source select.old self cursor.old result select.new cursor.new }
    {
        self.join_word(cursor, select)?;
        self.one_source(cursor, select)?;
        self.on_part(cursor, select)
    }

    /// A source behind a comma, or a joined one.
    #[tactic(auto, unfolding(crate::specs::Grammar::another_source))]
    fn another_source(
        self,
        cursor: &mut Cursor<'_>,
        select: &mut ParsedSelect,
    ) -> Result<(), Unread>
        ensures { AddsBy rule.another_source select.old self cursor.old result select.new cursor.new }
    {
        if cursor.begins(&[TerminalKind::Comma]) {
            cursor.take(&[TerminalKind::Comma])?;
            return self.one_source(cursor, select);
        }
        self.joined_source(cursor, select)
    }

    /// More sources.
    fn more_sources(self, cursor: &mut Cursor<'_>, select: &mut ParsedSelect) -> Result<(), Unread>
        ensures { AddsBy rule.more_sources select.old self cursor.old result select.new cursor.new }
    {
        'turns: while cursor.begins(&[
            TerminalKind::Comma,
            TerminalKind::Inner,
            TerminalKind::Join,
        ]) {
            self.another_source(cursor, select)?;
        }
        Ok(())
    }

    /// The sources behind FROM.
    #[tactic(auto, unfolding(crate::specs::Grammar::source_list))]
    fn source_list(self, cursor: &mut Cursor<'_>, select: &mut ParsedSelect) -> Result<(), Unread>
        ensures { AddsBy rule.source_list select.old self cursor.old result select.new cursor.new }
    {
        self.one_source(cursor, select)?;
        self.more_sources(cursor, select)
    }

    /// The tests of WHERE, perhaps.
    #[tactic(auto, unfolding(crate::specs::Grammar::where_part))]
    fn where_part(self, cursor: &mut Cursor<'_>, select: &mut ParsedSelect) -> Result<(), Unread>
        ensures { AddsBy rule.where_part select.old self cursor.old result select.new cursor.new }
    {
        self.where_conditions(cursor, &mut select.conditions)
    }

    /// A column, put behind those before.
    #[tactic(auto, unfolding(crate::specs::Grammar::one_column))]
    fn one_column(self, cursor: &mut Cursor<'_>, all: &mut List<NameUse>) -> Result<(), Unread>
        ensures { AddsBy rule.one_column all.old self cursor.old result all.new cursor.new }
    {
        let column = self.column(cursor)?;
        push(all, column)
    }

    /// A comma and a column.
    #[tactic(auto, unfolding(crate::specs::Grammar::another_column))]
    fn another_column(self, cursor: &mut Cursor<'_>, all: &mut List<NameUse>) -> Result<(), Unread>
        ensures { AddsBy rule.another_column all.old self cursor.old result all.new cursor.new }
    {
        cursor.take(&[TerminalKind::Comma])?;
        self.one_column(cursor, all)
    }

    /// More columns behind commas.
    fn more_columns(self, cursor: &mut Cursor<'_>, all: &mut List<NameUse>) -> Result<(), Unread>
        ensures { AddsBy rule.more_columns all.old self cursor.old result all.new cursor.new }
    {
        'turns: while cursor.begins(&[TerminalKind::Comma]) {
            self.another_column(cursor, all)?;
        }
        Ok(())
    }

    /// Columns with commas between them.
    #[tactic(auto, unfolding(crate::specs::Grammar::column_list))]
    fn column_list(self, cursor: &mut Cursor<'_>, all: &mut List<NameUse>) -> Result<(), Unread>
        ensures { AddsBy rule.column_list all.old self cursor.old result all.new cursor.new }
    {
        self.one_column(cursor, all)?;
        self.more_columns(cursor, all)
    }

    /// GROUP BY and its columns, perhaps.
    #[tactic(auto, unfolding(crate::specs::Grammar::group_part))]
    fn group_part(self, cursor: &mut Cursor<'_>, select: &mut ParsedSelect) -> Result<(), Unread>
        ensures { AddsBy rule.group_part select.old self cursor.old result select.new cursor.new }
    {
        if !cursor.begins(&[TerminalKind::Group]) {
            return Ok(());
        }
        cursor.take(&[TerminalKind::Group])?;
        cursor.take(&[TerminalKind::By])?;
        self.column_list(cursor, &mut select.group)
    }

    /// A comparison of two expressions.
    #[tactic(auto, unfolding(crate::specs::Grammar::having_test))]
    fn having_test(self, cursor: &mut Cursor<'_>, found: &mut Seen) -> Result<(), Unread>
        requires { room.Fits found.old.stars cursor.old }
        ensures reads { AddsBy rule.having_test found.old self cursor.old result found.new cursor.new }
        ensures room { room.Spends found.old.stars cursor.old found.new.stars cursor.new }
    {
        self.expression(cursor, found)?;
        cursor.take(&COMPARISONS)?;
        self.expression(cursor, found)
    }

    /// AND and a comparison.
    #[tactic(auto, unfolding(crate::specs::Grammar::another_having_test))]
    fn another_having_test(self, cursor: &mut Cursor<'_>, found: &mut Seen) -> Result<(), Unread>
        requires { room.Fits found.old.stars cursor.old }
        ensures reads { AddsBy rule.another_having_test found.old self cursor.old result found.new cursor.new }
        ensures room { room.Spends found.old.stars cursor.old found.new.stars cursor.new }
    {
        cursor.take(&[TerminalKind::And])?;
        self.having_test(cursor, found)
    }

    /// More comparisons behind AND.
    fn more_having_tests(self, cursor: &mut Cursor<'_>, found: &mut Seen) -> Result<(), Unread>
        requires { room.Fits found.old.stars cursor.old }
        ensures reads { AddsBy rule.more_having_tests found.old self cursor.old result found.new cursor.new }
        ensures room { room.Spends found.old.stars cursor.old found.new.stars cursor.new }
    {
        'turns: while cursor.begins(&[TerminalKind::And]) {
            self.another_having_test(cursor, found)?;
        }
        Ok(())
    }

    /// Comparisons with AND between them.
    #[tactic(auto, unfolding(crate::specs::Grammar::having_tests))]
    fn having_tests(self, cursor: &mut Cursor<'_>, found: &mut Seen) -> Result<(), Unread>
        requires { room.Fits found.old.stars cursor.old }
        ensures reads { AddsBy rule.having_tests found.old self cursor.old result found.new cursor.new }
        ensures room { room.Spends found.old.stars cursor.old found.new.stars cursor.new }
    {
        self.having_test(cursor, found)?;
        self.more_having_tests(cursor, found)
    }

    /// HAVING and its comparisons, perhaps.
    #[tactic(auto, unfolding(crate::specs::Grammar::having_part, crate::specs::inner::Remaining::remaining))]
    fn having_part(
        self,
        alloc: Global,
        cursor: &mut Cursor<'_>,
        select: &mut ParsedSelect,
    ) -> Result<(), Unread>
        ensures { AddsBy rule.having_part select.old self cursor.old result select.new cursor.new }
    {
        if !cursor.begins(&[TerminalKind::Having]) {
            return Ok(());
        }
        cursor.take(&[TerminalKind::Having])?;
        let mut found = Seen::new(alloc);
        self.having_tests(cursor, &mut found)?;
        select.having = found.into_uses();
        Ok(())
    }

    /// FROM and the sources.
    #[tactic(auto, unfolding(crate::specs::Grammar::from_part))]
    fn from_part(self, cursor: &mut Cursor<'_>, select: &mut ParsedSelect) -> Result<(), Unread>
        ensures { AddsBy rule.from_part select.old self cursor.old result select.new cursor.new }
    {
        cursor.take(&[TerminalKind::From])?;
        self.source_list(cursor, select)
    }

    /// A SELECT up to its sources, behind its first word.
    #[tactic(auto, unfolding(crate::specs::Grammar::select_head))]
    fn select_head(
        self,
        alloc: Global,
        cursor: &mut Cursor<'_>,
        select: &mut ParsedSelect,
    ) -> Result<(), Unread>
        ensures { AddsBy rule.select_head select.old self cursor.old result select.new cursor.new }
    {
        self.quantifier(cursor, select)?;
        self.item_list(alloc, cursor, &mut select.items)?;
        self.from_part(cursor, select)
    }

    /// The groups of a SELECT and their tests.
    #[tactic(auto, unfolding(crate::specs::Grammar::group_and_having))]
    fn group_and_having(
        self,
        alloc: Global,
        cursor: &mut Cursor<'_>,
        select: &mut ParsedSelect,
    ) -> Result<(), Unread>
        ensures { AddsBy rule.group_and_having select.old self cursor.old result select.new cursor.new }
    {
        self.group_part(cursor, select)?;
        self.having_part(alloc, cursor, select)
    }

    /// A SELECT behind its sources.
    #[tactic(auto, unfolding(crate::specs::Grammar::select_tail))]
    fn select_tail(
        self,
        alloc: Global,
        cursor: &mut Cursor<'_>,
        select: &mut ParsedSelect,
    ) -> Result<(), Unread>
        ensures { AddsBy rule.select_tail select.old self cursor.old result select.new cursor.new }
    {
        self.where_part(cursor, select)?;
        self.group_and_having(alloc, cursor, select)?;
        self.order_and_limit(alloc, cursor, select)
    }

    /// A SELECT behind its first word.
    #[tactic(auto, unfolding(crate::specs::Grammar::select_rest))]
    pub fn select_rest(self, alloc: Global, cursor: &mut Cursor<'_>) -> Result<ParsedSelect, Unread>
        ensures { ReadsBy rule.select_rest tt self cursor.old result cursor.new }
    {
        let mut select = ParsedSelect::new(alloc);
        self.select_head(alloc, cursor, &mut select)?;
        self.select_tail(alloc, cursor, &mut select)?;
        Ok(select)
    }
}
