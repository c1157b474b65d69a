//! Reads the items of a select list.
ghost use Rattle.sql_reader.specs.Grammar as rule;
ghost use Rattle.sql_reader.specs.inner.Reads.{AddsBy, ReadsBy};
ghost use Rattle.sql_reader.specs.inner.Room as room;

use crate::cursor::{Cursor, GrammarReader, Unread};
use crate::list::push;
use crate::name::{NAMES, PLAIN_NAMES};
use crate::{NameUse, ParsedItem, Seen, Terminal, TerminalKind};
use adv_base::List;
use std::alloc::Global;

impl GrammarReader {
    /// The rest of an expression of a select list, and its alias.
    #[tactic(auto, unfolding(crate::specs::Grammar::rest_of_item))]
    fn rest_of_item(self, cursor: &mut Cursor<'_>, mut found: Seen) -> Result<ParsedItem, Unread>
        requires { room.Fits found.stars cursor.old }
        ensures { ReadsBy rule.rest_of_item found self cursor.old result cursor.new }
    {
        self.operations(cursor, &mut found)?;
        let alias = self.alias(cursor)?;
        Ok(ParsedItem::Made {
            expr: found.expr(),
            alias,
        })
    }

    /// An item behind a name and a point.
    #[tactic(auto, unfolding(crate::specs::Grammar::after_item_point, crate::specs::inner::Remaining::remaining))]
    fn after_item_point(
        self,
        alloc: Global,
        cursor: &mut Cursor<'_>,
        name: Terminal,
    ) -> Result<ParsedItem, Unread>
        ensures { ReadsBy rule.after_item_point name self cursor.old result cursor.new }
    {
        if cursor.begins(&[TerminalKind::Star]) {
            cursor.take(&[TerminalKind::Star])?;
            return Ok(ParsedItem::SlotStar(name.span));
        }
        let second = cursor.take(&NAMES)?;
        let mut found = Seen::new(alloc);
        found.add_use(NameUse {
            qualifier: Some(name.span),
            name: second.span,
        })?;
        self.rest_of_item(cursor, found)
    }

    /// An item behind its first name.
    #[tactic(auto, unfolding(crate::specs::Grammar::after_item_name, crate::specs::inner::Remaining::remaining))]
    fn after_item_name(
        self,
        alloc: Global,
        cursor: &mut Cursor<'_>,
        name: Terminal,
    ) -> Result<ParsedItem, Unread>
        ensures { ReadsBy rule.after_item_name name self cursor.old result cursor.new }
    {
        if cursor.begins(&[TerminalKind::Point]) {
            cursor.take(&[TerminalKind::Point])?;
            return self.after_item_point(alloc, cursor, name);
        }
        let mut found = Seen::new(alloc);
        self.called_name(cursor, &mut found, name)?;
        self.rest_of_item(cursor, found)
    }

    /// An item behind DATE.
    #[tactic(auto, unfolding(crate::specs::Grammar::after_item_date, crate::specs::inner::Remaining::remaining))]
    fn after_item_date(
        self,
        alloc: Global,
        cursor: &mut Cursor<'_>,
        name: Terminal,
    ) -> Result<ParsedItem, Unread>
        ensures { ReadsBy rule.after_item_date name self cursor.old result cursor.new }
    {
        if cursor.begins(&[TerminalKind::Day]) {
            cursor.take(&[TerminalKind::Day])?;
            return self.rest_of_item(cursor, Seen::new(alloc));
        }
        self.after_item_name(alloc, cursor, name)
    }

    /// An item that begins with no name.
    #[tactic(auto, unfolding(crate::specs::Grammar::literal_item, crate::specs::inner::Remaining::remaining))]
    fn literal_item(self, alloc: Global, cursor: &mut Cursor<'_>) -> Result<ParsedItem, Unread>
        ensures { ReadsBy rule.literal_item tt self cursor.old result cursor.new }
    {
        let mut found = Seen::new(alloc);
        self.other_operand(cursor, &mut found)?;
        self.rest_of_item(cursor, found)
    }

    /// An item of a select list.
    #[tactic(auto, unfolding(crate::specs::Grammar::item_value))]
    fn item_value(self, alloc: Global, cursor: &mut Cursor<'_>) -> Result<ParsedItem, Unread>
        ensures { ReadsBy rule.item_value tt self cursor.old result cursor.new }
    {
        if cursor.begins(&[TerminalKind::Star]) {
            cursor.take(&[TerminalKind::Star])?;
            return Ok(ParsedItem::Star);
        }
        if cursor.begins(&[TerminalKind::Date]) {
            let name = cursor.take(&[TerminalKind::Date])?;
            return self.after_item_date(alloc, cursor, name);
        }
        if cursor.begins(&PLAIN_NAMES) {
            let name = cursor.take(&PLAIN_NAMES)?;
            return self.after_item_name(alloc, cursor, name);
        }
        self.literal_item(alloc, cursor)
    }

    /// An item, put behind those before.
    #[tactic(auto, unfolding(crate::specs::Grammar::one_item))]
    fn one_item(
        self,
        alloc: Global,
        cursor: &mut Cursor<'_>,
        all: &mut List<ParsedItem>,
    ) -> Result<(), Unread>
        ensures { AddsBy rule.one_item all.old self cursor.old result all.new cursor.new }
    {
        let item = self.item_value(alloc, cursor)?;
        push(all, item)
    }

    /// A comma and an item.
    #[tactic(auto, unfolding(crate::specs::Grammar::another_item))]
    fn another_item(
        self,
        alloc: Global,
        cursor: &mut Cursor<'_>,
        all: &mut List<ParsedItem>,
    ) -> Result<(), Unread>
        ensures { AddsBy rule.another_item all.old self cursor.old result all.new cursor.new }
    {
        cursor.take(&[TerminalKind::Comma])?;
        self.one_item(alloc, cursor, all)
    }

    /// More items behind commas.
    fn more_items(
        self,
        alloc: Global,
        cursor: &mut Cursor<'_>,
        all: &mut List<ParsedItem>,
    ) -> Result<(), Unread>
        ensures { AddsBy rule.more_items all.old self cursor.old result all.new cursor.new }
    {
        'turns: while cursor.begins(&[TerminalKind::Comma]) {
            self.another_item(alloc, cursor, all)?;
        }
        Ok(())
    }

    /// The items of a select list.
    #[tactic(auto, unfolding(crate::specs::Grammar::item_list))]
    pub fn item_list(
        self,
        alloc: Global,
        cursor: &mut Cursor<'_>,
        all: &mut List<ParsedItem>,
    ) -> Result<(), Unread>
        ensures { AddsBy rule.item_list all.old self cursor.old result all.new cursor.new }
    {
        self.one_item(alloc, cursor, all)?;
        self.more_items(alloc, cursor, all)
    }
}
