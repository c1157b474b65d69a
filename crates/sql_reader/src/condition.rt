//! Reads the tests of ON and WHERE.
ghost use Rattle.sql_reader.specs.Grammar as rule;
ghost use Rattle.sql_reader.specs.inner.Reads.{AddsBy, AddsNested, ReadsBy};
ghost use Rattle.sql_reader.specs.inner.Room as room;
ghost use Rattle.sql_reader.specs.Rule.{Conditions};

use crate::cursor::{Cursor, GrammarReader, Unread};
use crate::list::push;
use crate::literal::COMPARISONS;
use crate::name::PLAIN_NAMES;
use crate::{Compare, Condition, Literal, NameUse, TerminalKind};
use adv_base::List;
use sql_tokens::Span;

impl GrammarReader {
    /// A comparison and a column, behind a value.
    #[tactic(auto, unfolding(crate::specs::Grammar::turned_test))]
    pub fn turned_test(self, cursor: &mut Cursor<'_>, value: Literal) -> Result<Condition, Unread>
        ensures { ReadsBy rule.turned_test value self cursor.old result cursor.new }
    {
        let comparison = cursor.take(&COMPARISONS)?;
        let column = self.column(cursor)?;
        Ok(Condition::Compared(column, comparison.kind.compare().turned(), value))
    }

    /// The second column of an equation, behind its first name.
    #[tactic(auto, unfolding(crate::specs::Grammar::tied_test))]
    pub fn tied_test(
        self,
        cursor: &mut Cursor<'_>,
        column: NameUse,
        first: Span,
    ) -> Result<Condition, Unread>
        ensures { ReadsBy rule.tied_test (column, first) self cursor.old result cursor.new }
    {
        let other = self.after_name(cursor, first)?;
        Ok(Condition::Tied(column, other))
    }

    /// What stands behind DATE on the right of an equation.
    #[tactic(auto, unfolding(crate::specs::Grammar::after_equal_date))]
    pub fn after_equal_date(
        self,
        cursor: &mut Cursor<'_>,
        column: NameUse,
        first: Span,
    ) -> Result<Condition, Unread>
        ensures { ReadsBy rule.after_equal_date (column, first) self cursor.old result cursor.new }
    {
        if cursor.begins(&[TerminalKind::Day]) {
            let day = cursor.take(&[TerminalKind::Day])?;
            return Ok(Condition::Compared(column, Compare::Equal, day.day()));
        }
        self.tied_test(cursor, column, first)
    }

    /// The right side of an equation: a value or a column.
    #[tactic(auto, unfolding(crate::specs::Grammar::equal_test))]
    pub fn equal_test(self, cursor: &mut Cursor<'_>, column: NameUse) -> Result<Condition, Unread>
        ensures { ReadsBy rule.equal_test column self cursor.old result cursor.new }
    {
        if cursor.begins(&[TerminalKind::Date]) {
            let first = cursor.take(&[TerminalKind::Date])?;
            return self.after_equal_date(cursor, column, first.span);
        }
        if cursor.begins(&PLAIN_NAMES) {
            let first = cursor.take(&PLAIN_NAMES)?;
            return self.tied_test(cursor, column, first.span);
        }
        let value = self.plain_value(cursor)?;
        Ok(Condition::Compared(column, Compare::Equal, value))
    }

    /// A comparison other than `=`, and a value.
    #[tactic(auto, unfolding(crate::specs::Grammar::unequal_test))]
    pub fn unequal_test(self, cursor: &mut Cursor<'_>, column: NameUse) -> Result<Condition, Unread>
        ensures { ReadsBy rule.unequal_test column self cursor.old result cursor.new }
    {
        let comparison = cursor.take(&[
            TerminalKind::NotEqual,
            TerminalKind::Below,
            TerminalKind::Above,
        ])?;
        let value = self.value(cursor)?;
        Ok(Condition::Compared(column, comparison.kind.compare(), value))
    }

    /// BETWEEN, a value, AND, a value.
    #[tactic(auto, unfolding(crate::specs::Grammar::between_test))]
    pub fn between_test(self, cursor: &mut Cursor<'_>, column: NameUse) -> Result<Condition, Unread>
        ensures { ReadsBy rule.between_test column self cursor.old result cursor.new }
    {
        cursor.take(&[TerminalKind::Between])?;
        let low = self.value(cursor)?;
        cursor.take(&[TerminalKind::And])?;
        let high = self.value(cursor)?;
        Ok(Condition::Between(column, low, high))
    }

    /// A comma and a value, counted.
    #[tactic(auto, unfolding(crate::specs::Grammar::in_value))]
    pub fn in_value(self, cursor: &mut Cursor<'_>, count: &mut u32) -> Result<(), Unread>
        requires { room.Fits count.old cursor.old }
        ensures reads { AddsBy rule.in_value count.old self cursor.old result count.new cursor.new }
        ensures room { room.Spends count.old cursor.old count.new cursor.new }
    {
        cursor.take(&[TerminalKind::Comma])?;
        self.value(cursor)?;
        *count += 1;
        Ok(())
    }

    /// More values behind commas, counted.
    pub fn more_in_values(self, cursor: &mut Cursor<'_>, count: &mut u32) -> Result<(), Unread>
        requires { room.Fits count.old cursor.old }
        ensures reads { AddsBy rule.more_in_values count.old self cursor.old result count.new cursor.new }
        ensures room { room.Spends count.old cursor.old count.new cursor.new }
    {
        'turns: while cursor.begins(&[TerminalKind::Comma]) {
            self.in_value(cursor, count)?;
        }
        Ok(())
    }

    /// Values with commas between them, and how many.
    #[tactic(auto, unfolding(crate::specs::Grammar::in_values, crate::specs::inner::Remaining::remaining))]
    pub fn in_values(self, cursor: &mut Cursor<'_>) -> Result<u32, Unread>
        ensures { ReadsBy rule.in_values tt self cursor.old result cursor.new }
    {
        self.value(cursor)?;
        let mut count = 1;
        self.more_in_values(cursor, &mut count)?;
        Ok(count)
    }

    /// IN and its values.
    #[tactic(auto, unfolding(crate::specs::Grammar::in_test))]
    pub fn in_test(self, cursor: &mut Cursor<'_>, column: NameUse) -> Result<Condition, Unread>
        ensures { ReadsBy rule.in_test column self cursor.old result cursor.new }
    {
        cursor.take(&[TerminalKind::In])?;
        cursor.take(&[TerminalKind::Open])?;
        let count = self.in_values(cursor)?;
        cursor.take(&[TerminalKind::Close])?;
        Ok(Condition::OneOf(column, count))
    }

    /// LIKE and a value.
    #[tactic(auto, unfolding(crate::specs::Grammar::like_test))]
    pub fn like_test(self, cursor: &mut Cursor<'_>, column: NameUse) -> Result<Condition, Unread>
        ensures { ReadsBy rule.like_test column self cursor.old result cursor.new }
    {
        cursor.take(&[TerminalKind::Like])?;
        self.value(cursor)?;
        Ok(Condition::Like(column))
    }

    /// IS NULL or IS NOT NULL.
    #[tactic(auto, unfolding(crate::specs::Grammar::null_test))]
    pub fn null_test(self, cursor: &mut Cursor<'_>, column: NameUse) -> Result<Condition, Unread>
        ensures { ReadsBy rule.null_test column self cursor.old result cursor.new }
    {
        cursor.take(&[TerminalKind::Is])?;
        if cursor.begins(&[TerminalKind::Not]) {
            cursor.take(&[TerminalKind::Not])?;
            cursor.take(&[TerminalKind::Null])?;
            return Ok(Condition::NotNull(column));
        }
        cursor.take(&[TerminalKind::Null])?;
        Ok(Condition::IsNull(column))
    }

    /// What a test says of a column.
    #[tactic(auto, unfolding(crate::specs::Grammar::column_test))]
    pub fn column_test(self, cursor: &mut Cursor<'_>, column: NameUse) -> Result<Condition, Unread>
        ensures { ReadsBy rule.column_test column self cursor.old result cursor.new }
    {
        if cursor.begins(&[TerminalKind::Equal]) {
            cursor.take(&[TerminalKind::Equal])?;
            return self.equal_test(cursor, column);
        }
        if cursor.begins(&[
            TerminalKind::NotEqual,
            TerminalKind::Below,
            TerminalKind::Above,
        ]) {
            return self.unequal_test(cursor, column);
        }
        if cursor.begins(&[TerminalKind::Between]) {
            return self.between_test(cursor, column);
        }
        if cursor.begins(&[TerminalKind::In]) {
            return self.in_test(cursor, column);
        }
        if cursor.begins(&[TerminalKind::Like]) {
            return self.like_test(cursor, column);
        }
        self.null_test(cursor, column)
    }

    /// A test behind the first name of its column.
    #[tactic(auto, unfolding(crate::specs::Grammar::after_test_name))]
    pub fn after_test_name(self, cursor: &mut Cursor<'_>, first: Span) -> Result<Condition, Unread>
        ensures { ReadsBy rule.after_test_name first self cursor.old result cursor.new }
    {
        let column = self.after_name(cursor, first)?;
        self.column_test(cursor, column)
    }

    /// A test behind DATE.
    #[tactic(auto, unfolding(crate::specs::Grammar::after_test_date))]
    pub fn after_test_date(self, cursor: &mut Cursor<'_>, first: Span) -> Result<Condition, Unread>
        ensures { ReadsBy rule.after_test_date first self cursor.old result cursor.new }
    {
        if cursor.begins(&[TerminalKind::Day]) {
            let day = cursor.take(&[TerminalKind::Day])?;
            return self.turned_test(cursor, day.day());
        }
        self.after_test_name(cursor, first)
    }

    /// A test that stands in no parentheses.
    #[tactic(auto, unfolding(crate::specs::Grammar::plain_condition))]
    pub fn test(self, cursor: &mut Cursor<'_>) -> Result<Condition, Unread>
        ensures { ReadsBy rule.plain_condition tt self cursor.old result cursor.new }
    {
        if cursor.begins(&[TerminalKind::Date]) {
            let first = cursor.take(&[TerminalKind::Date])?;
            return self.after_test_date(cursor, first.span);
        }
        if cursor.begins(&PLAIN_NAMES) {
            let first = cursor.take(&PLAIN_NAMES)?;
            return self.after_test_name(cursor, first.span);
        }
        let value = self.plain_value(cursor)?;
        self.turned_test(cursor, value)
    }

    /// A test, or tests in parentheses.
    #[tactic(auto, unfolding(crate::specs::Grammar::condition))]
    #[cycle(conditions)]
    fn condition(self, cursor: &mut Cursor<'_>, all: &mut List<Condition>) -> Result<(), Unread>
        ensures { AddsBy rule.condition all.old self cursor.old result all.new cursor.new }
    {
        if cursor.begins(&[TerminalKind::Open]) {
            return self.deeper_conditions(cursor, all);
        }
        let condition = self.test(cursor)?;
        push(all, condition)
    }

    /// AND and a test.
    #[tactic(auto, unfolding(crate::specs::Grammar::and_condition))]
    #[cycle(conditions)]
    fn and_condition(self, cursor: &mut Cursor<'_>, all: &mut List<Condition>) -> Result<(), Unread>
        ensures { AddsBy rule.and_condition all.old self cursor.old result all.new cursor.new }
    {
        cursor.take(&[TerminalKind::And])?;
        self.condition(cursor, all)
    }

    /// More tests behind AND.
    #[cycle(conditions)]
    fn more_conditions(
        self,
        cursor: &mut Cursor<'_>,
        all: &mut List<Condition>,
    ) -> Result<(), Unread>
        ensures { AddsBy rule.more_conditions all.old self cursor.old result all.new cursor.new }
    {
        'turns: while cursor.begins(&[TerminalKind::And]) {
            self.and_condition(cursor, all)?;
        }
        Ok(())
    }

    /// Tests with AND between them.
    #[tactic(auto, unfolding(crate::specs::Grammar::conditions))]
    #[cycle(conditions)]
    pub fn conditions(
        self,
        cursor: &mut Cursor<'_>,
        all: &mut List<Condition>,
    ) -> Result<(), Unread>
        ensures { AddsBy rule.conditions all.old self cursor.old result all.new cursor.new }
    {
        self.condition(cursor, all)?;
        self.more_conditions(cursor, all)
    }

    /// Tests in parentheses.
    #[tactic(auto, unfolding(crate::specs::Grammar::nested_conditions))]
    #[cycle(conditions)]
    fn nested_conditions(
        self,
        cursor: &mut Cursor<'_>,
        all: &mut List<Condition>,
    ) -> Result<(), Unread>
        ensures { AddsBy rule.nested_conditions all.old self cursor.old result all.new cursor.new }
    {
        cursor.take(&[TerminalKind::Open])?;
        self.conditions(cursor, all)?;
        cursor.take(&[TerminalKind::Close])?;
        Ok(())
    }

    /// Tests in parentheses, one level deeper.
    #[tactic(auto, using(crate::proofs::Nested::no_conditions, crate::proofs::Nested::deeper_conditions))]
    #[cycle(conditions)]
    fn deeper_conditions(
        self,
        cursor: &mut Cursor<'_>,
        all: &mut List<Condition>,
    ) -> Result<(), Unread>
        ensures { AddsNested Conditions all.old self cursor.old result all.new cursor.new }
    {
        if self.levels == 0 {
            return Err(Unread::Here);
        }
        let inner = GrammarReader {
            levels: self.levels - 1,
        };
        inner.nested_conditions(cursor, all)
    }

    /// WHERE and its tests, perhaps.
    #[tactic(auto, unfolding(crate::specs::Grammar::where_conditions))]
    pub fn where_conditions(
        self,
        cursor: &mut Cursor<'_>,
        all: &mut List<Condition>,
    ) -> Result<(), Unread>
        ensures { AddsBy rule.where_conditions all.old self cursor.old result all.new cursor.new }
    {
        if !cursor.begins(&[TerminalKind::Where]) {
            return Ok(());
        }
        cursor.take(&[TerminalKind::Where])?;
        self.conditions(cursor, all)
    }
}
