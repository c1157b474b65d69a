//! Reads ORDER BY and LIMIT.
ghost use Rattle.sql_reader.specs.Grammar as rule;
ghost use Rattle.sql_reader.specs.inner.Reads.{AddsBy, ReadsBy};

use crate::cursor::{Cursor, GrammarReader, Unread};
use crate::list::push;
use crate::{ParsedOrder, ParsedSelect, Seen, TerminalKind};
use adv_base::List;
use std::alloc::Global;

impl GrammarReader {
    /// ASC or DESC, perhaps, behind an expression.
    #[tactic(auto, unfolding(crate::specs::Grammar::direction))]
    fn direction(self, cursor: &mut Cursor<'_>, found: Seen) -> Result<ParsedOrder, Unread>
        ensures { ReadsBy rule.direction found self cursor.old result cursor.new }
    {
        let down = cursor.begins(&[TerminalKind::Desc]);
        if down {
            cursor.take(&[TerminalKind::Desc])?;
        } else if cursor.begins(&[TerminalKind::Asc]) {
            cursor.take(&[TerminalKind::Asc])?;
        }
        Ok(ParsedOrder {
            expr: found.expr(),
            down,
        })
    }

    /// An item of ORDER BY.
    #[tactic(auto, unfolding(crate::specs::Grammar::order_value, crate::specs::inner::Remaining::remaining))]
    fn order_value(self, alloc: Global, cursor: &mut Cursor<'_>) -> Result<ParsedOrder, Unread>
        ensures { ReadsBy rule.order_value tt self cursor.old result cursor.new }
    {
        let mut found = Seen::new(alloc);
        self.expression(cursor, &mut found)?;
        self.direction(cursor, found)
    }

    /// An item of ORDER BY, put behind those before.
    #[tactic(auto, unfolding(crate::specs::Grammar::one_order))]
    fn one_order(
        self,
        alloc: Global,
        cursor: &mut Cursor<'_>,
        all: &mut List<ParsedOrder>,
    ) -> Result<(), Unread>
        ensures { AddsBy rule.one_order all.old self cursor.old result all.new cursor.new }
    {
        let order = self.order_value(alloc, cursor)?;
        push(all, order)
    }

    /// A comma and an item of ORDER BY.
    #[tactic(auto, unfolding(crate::specs::Grammar::another_order))]
    fn another_order(
        self,
        alloc: Global,
        cursor: &mut Cursor<'_>,
        all: &mut List<ParsedOrder>,
    ) -> Result<(), Unread>
        ensures { AddsBy rule.another_order all.old self cursor.old result all.new cursor.new }
    {
        cursor.take(&[TerminalKind::Comma])?;
        self.one_order(alloc, cursor, all)
    }

    /// More items of ORDER BY behind commas.
    fn more_orders(
        self,
        alloc: Global,
        cursor: &mut Cursor<'_>,
        all: &mut List<ParsedOrder>,
    ) -> Result<(), Unread>
        ensures { AddsBy rule.more_orders all.old self cursor.old result all.new cursor.new }
    {
        'turns: while cursor.begins(&[TerminalKind::Comma]) {
            self.another_order(alloc, cursor, all)?;
        }
        Ok(())
    }

    /// The items of ORDER BY.
    #[tactic(auto, unfolding(crate::specs::Grammar::order_list))]
    fn order_list(
        self,
        alloc: Global,
        cursor: &mut Cursor<'_>,
        all: &mut List<ParsedOrder>,
    ) -> Result<(), Unread>
        ensures { AddsBy rule.order_list all.old self cursor.old result all.new cursor.new }
    {
        self.one_order(alloc, cursor, all)?;
        self.more_orders(alloc, cursor, all)
    }

    /// ORDER BY and its items, perhaps.
    #[tactic(auto, unfolding(crate::specs::Grammar::order_part))]
    fn order_part(
        self,
        alloc: Global,
        cursor: &mut Cursor<'_>,
        select: &mut ParsedSelect,
    ) -> Result<(), Unread>
        ensures { AddsBy rule.order_part select.old self cursor.old result select.new cursor.new }
    {
        if !cursor.begins(&[TerminalKind::Order]) {
            return Ok(());
        }
        cursor.take(&[TerminalKind::Order])?;
        cursor.take(&[TerminalKind::By])?;
        self.order_list(alloc, cursor, &mut select.order)
    }

    /// OFFSET and a count, perhaps.
    #[tactic(auto, unfolding(crate::specs::Grammar::offset_part))]
    fn offset_part(self, cursor: &mut Cursor<'_>) -> Result<(), Unread>
        ensures { ReadsBy rule.offset_part tt self cursor.old result cursor.new }
    {
        if cursor.begins(&[TerminalKind::Offset]) {
            cursor.take(&[TerminalKind::Offset])?;
            cursor.take(&[TerminalKind::Whole, TerminalKind::Question])?;
        }
        Ok(())
    }

    /// LIMIT and a count, perhaps, and then perhaps OFFSET and a count.
    #[tactic(auto, unfolding(crate::specs::Grammar::limit_part))]
    fn limit_part(self, cursor: &mut Cursor<'_>) -> Result<(), Unread>
        ensures { ReadsBy rule.limit_part tt self cursor.old result cursor.new }
    {
        if !cursor.begins(&[TerminalKind::Limit]) {
            return Ok(());
        }
        cursor.take(&[TerminalKind::Limit])?;
        cursor.take(&[TerminalKind::Whole, TerminalKind::Question])?;
        self.offset_part(cursor)
    }

    /// The order of a SELECT and its limit.
    #[tactic(auto, unfolding(crate::specs::Grammar::order_and_limit))]
    pub fn order_and_limit(
        self,
        alloc: Global,
        cursor: &mut Cursor<'_>,
        select: &mut ParsedSelect,
    ) -> Result<(), Unread>
        ensures { AddsBy rule.order_and_limit select.old self cursor.old result select.new cursor.new }
    {
        self.order_part(alloc, cursor, select)?;
        self.limit_part(cursor)
    }
}
