//! Reads INSERT, UPDATE and DELETE.
ghost use Rattle.sql_reader.specs.Grammar as rule;
ghost use Rattle.sql_reader.specs.inner.Room as room;
ghost use Rattle.sql_reader.specs.inner.Reads.{AddsBy, ReadsBy};
ghost use Rattle.std.specs.Prelude.{◌≡◌, IfOk};

use crate::cursor::{Cursor, GrammarReader, Unread};
use crate::list::push;
use crate::name::NAMES;
use crate::{Body, InsertParts, NameUse, Seen, Source, TerminalKind, UpdateParts};
use adv_base::List;
use std::alloc::Global;

impl GrammarReader {
    /// A name, put behind those before as a column.
    #[tactic(auto, unfolding(crate::specs::Grammar::name_as_column))]
    fn name_as_column(self, cursor: &mut Cursor<'_>, all: &mut List<NameUse>) -> Result<(), Unread>
        ensures reads { AddsBy rule.name_as_column all.old self cursor.old result all.new cursor.new }
        ensures left { room.TakesSome result cursor.old cursor.new }
    {
        let name = cursor.take(&NAMES)?;
        push(
            all,
            NameUse {
                qualifier: None,
                name: name.span,
            },
        )
    }

    /// A comma and a name.
    #[tactic(auto, unfolding(crate::specs::Grammar::another_name))]
    fn another_name(self, cursor: &mut Cursor<'_>, all: &mut List<NameUse>) -> Result<(), Unread>
        ensures { AddsBy rule.another_name all.old self cursor.old result all.new cursor.new }
    {
        cursor.take(&[TerminalKind::Comma])?;
        self.name_as_column(cursor, all)
    }

    /// More names behind commas.
    fn more_names(self, cursor: &mut Cursor<'_>, all: &mut List<NameUse>) -> Result<(), Unread>
        ensures { AddsBy rule.more_names all.old self cursor.old result all.new cursor.new }
    {
        'turns: while cursor.begins(&[TerminalKind::Comma]) {
            self.another_name(cursor, all)?;
        }
        Ok(())
    }

    /// Names with commas between them.
    #[tactic(auto, unfolding(crate::specs::Grammar::name_list))]
    fn name_list(self, cursor: &mut Cursor<'_>, all: &mut List<NameUse>) -> Result<(), Unread>
        ensures { AddsBy rule.name_list all.old self cursor.old result all.new cursor.new }
    {
        self.name_as_column(cursor, all)?;
        self.more_names(cursor, all)
    }

    /// The columns of an INSERT, perhaps.
    #[tactic(auto, unfolding(crate::specs::Grammar::insert_columns))]
    fn insert_columns(self, cursor: &mut Cursor<'_>, all: &mut List<NameUse>) -> Result<(), Unread>
        ensures { AddsBy rule.insert_columns all.old self cursor.old result all.new cursor.new }
    {
        if !cursor.begins(&[TerminalKind::Open]) {
            return Ok(());
        }
        cursor.take(&[TerminalKind::Open])?;
        self.name_list(cursor, all)?;
        cursor.take(&[TerminalKind::Close])?;
        Ok(())
    }

    /// The expressions of a row of VALUES.
    #[tactic(auto, unfolding(crate::specs::Grammar::row_values))]
    fn row_values(self, cursor: &mut Cursor<'_>, parts: &mut InsertParts) -> Result<(), Unread>
        requires rows { room.Fits parts.old.rows cursor.old }
        requires stars { room.Fits parts.old.found.stars cursor.old }
        ensures reads { AddsBy rule.row_values parts.old self cursor.old result parts.new cursor.new }
        ensures rows { room.Spends parts.old.rows cursor.old parts.new.rows cursor.new }
        ensures stars { room.Spends parts.old.found.stars cursor.old parts.new.found.stars cursor.new }
    {
        self.expressions(cursor, &mut parts.found)
    }

    /// A row of VALUES.
    #[tactic(auto, unfolding(crate::specs::Grammar::row))]
    fn row(self, cursor: &mut Cursor<'_>, parts: &mut InsertParts) -> Result<(), Unread>
        requires rows { room.Fits parts.old.rows cursor.old }
        requires stars { room.Fits parts.old.found.stars cursor.old }
        ensures reads { AddsBy rule.row parts.old self cursor.old result parts.new cursor.new }
        ensures rows { room.Spends parts.old.rows cursor.old parts.new.rows cursor.new }
        ensures stars { room.Spends parts.old.found.stars cursor.old parts.new.found.stars cursor.new }
    {
        cursor.take(&[TerminalKind::Open])?;
        self.row_values(cursor, parts)?;
        cursor.take(&[TerminalKind::Close])?;
        parts.rows += 1;
        Ok(())
    }

    /// A comma and a row.
    #[tactic(auto, unfolding(crate::specs::Grammar::another_row))]
    fn another_row(self, cursor: &mut Cursor<'_>, parts: &mut InsertParts) -> Result<(), Unread>
        requires rows { room.Fits parts.old.rows cursor.old }
        requires stars { room.Fits parts.old.found.stars cursor.old }
        ensures reads { AddsBy rule.another_row parts.old self cursor.old result parts.new cursor.new }
        ensures rows { room.Spends parts.old.rows cursor.old parts.new.rows cursor.new }
        ensures stars { room.Spends parts.old.found.stars cursor.old parts.new.found.stars cursor.new }
    {
        cursor.take(&[TerminalKind::Comma])?;
        self.row(cursor, parts)
    }

    /// More rows behind commas.
    fn more_rows(self, cursor: &mut Cursor<'_>, parts: &mut InsertParts) -> Result<(), Unread>
        requires rows { room.Fits parts.old.rows cursor.old }
        requires stars { room.Fits parts.old.found.stars cursor.old }
        ensures reads { AddsBy rule.more_rows parts.old self cursor.old result parts.new cursor.new }
        ensures rows { room.Spends parts.old.rows cursor.old parts.new.rows cursor.new }
        ensures stars { room.Spends parts.old.found.stars cursor.old parts.new.found.stars cursor.new }
    {
        'turns: while cursor.begins(&[TerminalKind::Comma]) {
            self.another_row(cursor, parts)?;
        }
        Ok(())
    }

    /// The rows of VALUES.
    #[tactic(auto, unfolding(crate::specs::Grammar::rows))]
    fn rows(self, cursor: &mut Cursor<'_>, parts: &mut InsertParts) -> Result<(), Unread>
        requires rows { room.Fits parts.old.rows cursor.old }
        requires stars { room.Fits parts.old.found.stars cursor.old }
        ensures reads { AddsBy rule.rows parts.old self cursor.old result parts.new cursor.new }
        ensures rows { room.Spends parts.old.rows cursor.old parts.new.rows cursor.new }
        ensures stars { room.Spends parts.old.found.stars cursor.old parts.new.found.stars cursor.new }
    {
        self.row(cursor, parts)?;
        self.more_rows(cursor, parts)
    }

    /// INTO and the table of an INSERT.
    #[tactic(auto, unfolding(crate::specs::Grammar::insert_table))]
    fn insert_table(self, alloc: Global, cursor: &mut Cursor<'_>) -> Result<InsertParts, Unread>
        ensures reads { ReadsBy rule.insert_table tt self cursor.old result cursor.new }
        ensures rows { IfOk result (λ parts. parts.rows ≡ 0) }
        ensures stars { IfOk result (λ parts. parts.found.stars ≡ 0) }
    {
        cursor.take(&[TerminalKind::Into])?;
        let table = cursor.take(&NAMES)?;
        Ok(InsertParts {
            table: table.span,
            columns: List::new(alloc),
            found: Seen::new(alloc),
            rows: 0,
        })
    }

    /// An INSERT behind its first word.
    #[tactic(auto, unfolding(crate::specs::Grammar::insert_rest, crate::specs::inner::Remaining::remaining))]
    fn insert_rest(self, alloc: Global, cursor: &mut Cursor<'_>) -> Result<InsertParts, Unread>
        ensures { ReadsBy rule.insert_rest tt self cursor.old result cursor.new }
    {
        let mut parts = self.insert_table(alloc, cursor)?;
        self.insert_columns(cursor, &mut parts.columns)?;
        cursor.take(&[TerminalKind::Values])?;
        self.rows(cursor, &mut parts)?;
        Ok(parts)
    }

    /// The column that is set, and `=`.
    #[tactic(auto, unfolding(crate::specs::Grammar::set_column))]
    fn set_column(self, cursor: &mut Cursor<'_>, parts: &mut UpdateParts) -> Result<(), Unread>
        requires { room.Fits parts.old.found.stars cursor.old }
        ensures reads { AddsBy rule.set_column parts.old self cursor.old result parts.new cursor.new }
        ensures room { room.Spends parts.old.found.stars cursor.old parts.new.found.stars cursor.new }
    {
        self.name_as_column(cursor, &mut parts.columns)?;
        cursor.take(&[TerminalKind::Equal])?;
        Ok(())
    }

    /// A column, `=` and an expression.
    #[tactic(auto, unfolding(crate::specs::Grammar::assignment))]
    fn assignment(self, cursor: &mut Cursor<'_>, parts: &mut UpdateParts) -> Result<(), Unread>
        requires { room.Fits parts.old.found.stars cursor.old }
        ensures reads { AddsBy rule.assignment parts.old self cursor.old result parts.new cursor.new }
        ensures room { room.Spends parts.old.found.stars cursor.old parts.new.found.stars cursor.new }
    {
        self.set_column(cursor, parts)?;
        self.expression(cursor, &mut parts.found)
    }

    /// A comma, a column, `=` and an expression.
    #[tactic(auto, unfolding(crate::specs::Grammar::another_assignment))]
    fn another_assignment(
        self,
        cursor: &mut Cursor<'_>,
        parts: &mut UpdateParts,
    ) -> Result<(), Unread>
        requires { room.Fits parts.old.found.stars cursor.old }
        ensures reads { AddsBy rule.another_assignment parts.old self cursor.old result parts.new cursor.new }
        ensures room { room.Spends parts.old.found.stars cursor.old parts.new.found.stars cursor.new }
    {
        cursor.take(&[TerminalKind::Comma])?;
        self.assignment(cursor, parts)
    }

    /// More of SET behind commas.
    fn more_assignments(
        self,
        cursor: &mut Cursor<'_>,
        parts: &mut UpdateParts,
    ) -> Result<(), Unread>
        requires { room.Fits parts.old.found.stars cursor.old }
        ensures reads { AddsBy rule.more_assignments parts.old self cursor.old result parts.new cursor.new }
        ensures room { room.Spends parts.old.found.stars cursor.old parts.new.found.stars cursor.new }
    {
        'turns: while cursor.begins(&[TerminalKind::Comma]) {
            self.another_assignment(cursor, parts)?;
        }
        Ok(())
    }

    /// What SET says.
    #[tactic(auto, unfolding(crate::specs::Grammar::assignments))]
    fn assignments(self, cursor: &mut Cursor<'_>, parts: &mut UpdateParts) -> Result<(), Unread>
        requires { room.Fits parts.old.found.stars cursor.old }
        ensures reads { AddsBy rule.assignments parts.old self cursor.old result parts.new cursor.new }
        ensures room { room.Spends parts.old.found.stars cursor.old parts.new.found.stars cursor.new }
    {
        self.assignment(cursor, parts)?;
        self.more_assignments(cursor, parts)
    }

    /// The source of an UPDATE.
    #[tactic(auto, unfolding(crate::specs::Grammar::update_source))]
    fn update_source(self, alloc: Global, cursor: &mut Cursor<'_>) -> Result<UpdateParts, Unread>
        ensures reads { ReadsBy rule.update_source tt self cursor.old result cursor.new }
        ensures stars { IfOk result (λ parts. parts.found.stars ≡ 0) }
    {
        let source = self.source(cursor)?;
        Ok(UpdateParts {
            source,
            columns: List::new(alloc),
            found: Seen::new(alloc),
            conditions: List::new(alloc),
        })
    }

    /// An UPDATE behind its first word.
    #[tactic(auto, unfolding(crate::specs::Grammar::update_rest, crate::specs::inner::Remaining::remaining))]
    fn update_rest(self, alloc: Global, cursor: &mut Cursor<'_>) -> Result<UpdateParts, Unread>
        ensures { ReadsBy rule.update_rest tt self cursor.old result cursor.new }
    {
        let mut parts = self.update_source(alloc, cursor)?;
        cursor.take(&[TerminalKind::Set])?;
        self.assignments(cursor, &mut parts)?;
        self.where_conditions(cursor, &mut parts.conditions)?;
        Ok(parts)
    }

    /// A DELETE behind its first word.
    #[tactic(auto, unfolding(crate::specs::Grammar::delete_rest))]
    pub fn delete_rest(self, alloc: Global, cursor: &mut Cursor<'_>) -> Result<Body, Unread>
        ensures { ReadsBy rule.delete_rest tt self cursor.old result cursor.new }
    {
        cursor.take(&[TerminalKind::From])?;
        let source = self.source(cursor)?;
        self.delete_conditions(alloc, cursor, source)
    }

    /// The tests of a DELETE.
    #[tactic(auto, unfolding(crate::specs::Grammar::delete_conditions))]
    fn delete_conditions(
        self,
        alloc: Global,
        cursor: &mut Cursor<'_>,
        source: Source,
    ) -> Result<Body, Unread>
        ensures { ReadsBy rule.delete_conditions source self cursor.old result cursor.new }
    {
        let mut conditions = List::new(alloc);
        self.where_conditions(cursor, &mut conditions)?;
        Ok(Body::Delete { source, conditions })
    }

    /// An INSERT behind its first word, as a body.
    #[tactic(auto, unfolding(crate::specs::Grammar::insert))]
    pub fn insert(self, alloc: Global, cursor: &mut Cursor<'_>) -> Result<Body, Unread>
        ensures { ReadsBy rule.insert tt self cursor.old result cursor.new }
    {
        let InsertParts {
            table,
            columns,
            found,
            rows,
        } = self.insert_rest(alloc, cursor)?;
        Ok(Body::Insert {
            table,
            columns,
            uses: found.into_uses(),
            rows,
        })
    }

    /// An UPDATE behind its first word, as a body.
    #[tactic(auto, unfolding(crate::specs::Grammar::update))]
    pub fn update(self, alloc: Global, cursor: &mut Cursor<'_>) -> Result<Body, Unread>
        ensures { ReadsBy rule.update tt self cursor.old result cursor.new }
    {
        let UpdateParts {
            source,
            columns,
            found,
            conditions,
        } = self.update_rest(alloc, cursor)?;
        Ok(Body::Update {
            source,
            columns,
            uses: found.into_uses(),
            conditions,
        })
    }
}
