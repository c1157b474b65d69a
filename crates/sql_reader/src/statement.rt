//! Reads statements and workloads.
ghost use Rattle.sql_reader.specs.Grammar as rule;
ghost use Rattle.sql_reader.specs.inner.Reads.{AddsBy, ReadsBy};
ghost use Rattle.std.specs.Prelude.{◌≡◌};
ghost use Rattle.sql_reader.specs.Values as values;
ghost use Rattle.std.specs.Prelude.{OnOk, IfErr};
ghost use Rattle.sql_reader.specs.declared.cursor.Unread.TheVariants.{Memory};

use crate::cursor::{Cursor, GrammarReader, Unread};
use crate::list::push;
use crate::{Body, ParsedStatement, Progress, Terminal, TerminalKind};
use std::alloc::Global;

/// The words with which statements begin.
pub const STARTS: [TerminalKind; 4] = [
    TerminalKind::Select,
    TerminalKind::Insert,
    TerminalKind::Update,
    TerminalKind::Delete,
];

impl Progress {
    /// Adds the statement that begins with this terminal.
    fn add(&mut self, first: Terminal, body: Body) -> Result<(), Unread>
        ensures ok { OnOk result (self.new ≡ values.with_statement self.old first body) }
        ensures err { IfErr result (λ stop. stop ≡ Memory) }
    {
        let place = first.span.place();
        let weight = if self.before < first.mark.place {
            first.mark.weight
        } else {
            1
        };
        push(
            &mut self.statements,
            ParsedStatement {
                place,
                weight,
                body,
            },
        )?;
        self.before = place;
        Ok(())
    }
}

impl GrammarReader {
    /// A SELECT behind its first word, as a body.
    #[tactic(auto, unfolding(crate::specs::Grammar::select))]
    fn select(self, alloc: Global, cursor: &mut Cursor<'_>) -> Result<Body, Unread>
        ensures { ReadsBy rule.select tt self cursor.old result cursor.new }
    {
        let select = self.select_rest(alloc, cursor)?;
        Ok(Body::Select(select))
    }

    /// A SELECT, put behind the statements before.
    #[tactic(auto, unfolding(crate::specs::Grammar::select_statement))]
    fn select_statement(
        self,
        alloc: Global,
        cursor: &mut Cursor<'_>,
        progress: &mut Progress,
    ) -> Result<(), Unread>
        ensures { AddsBy rule.select_statement progress.old self cursor.old result progress.new cursor.new }
    {
        let first = cursor.take(&[TerminalKind::Select])?;
        let body = self.select(alloc, cursor)?;
        progress.add(first, body)
    }

    /// An INSERT, put behind the statements before.
    #[tactic(auto, unfolding(crate::specs::Grammar::insert_statement))]
    fn insert_statement(
        self,
        alloc: Global,
        cursor: &mut Cursor<'_>,
        progress: &mut Progress,
    ) -> Result<(), Unread>
        ensures { AddsBy rule.insert_statement progress.old self cursor.old result progress.new cursor.new }
    {
        let first = cursor.take(&[TerminalKind::Insert])?;
        let body = self.insert(alloc, cursor)?;
        progress.add(first, body)
    }

    /// An UPDATE, put behind the statements before.
    #[tactic(auto, unfolding(crate::specs::Grammar::update_statement))]
    fn update_statement(
        self,
        alloc: Global,
        cursor: &mut Cursor<'_>,
        progress: &mut Progress,
    ) -> Result<(), Unread>
        ensures { AddsBy rule.update_statement progress.old self cursor.old result progress.new cursor.new }
    {
        let first = cursor.take(&[TerminalKind::Update])?;
        let body = self.update(alloc, cursor)?;
        progress.add(first, body)
    }

    /// A DELETE, put behind the statements before.
    #[tactic(auto, unfolding(crate::specs::Grammar::delete_statement))]
    fn delete_statement(
        self,
        alloc: Global,
        cursor: &mut Cursor<'_>,
        progress: &mut Progress,
    ) -> Result<(), Unread>
        ensures { AddsBy rule.delete_statement progress.old self cursor.old result progress.new cursor.new }
    {
        let first = cursor.take(&[TerminalKind::Delete])?;
        let body = self.delete_rest(alloc, cursor)?;
        progress.add(first, body)
    }

    /// A statement, put behind those before.
    #[tactic(auto, unfolding(crate::specs::Grammar::statement))]
    fn statement(
        self,
        alloc: Global,
        cursor: &mut Cursor<'_>,
        progress: &mut Progress,
    ) -> Result<(), Unread>
        ensures { AddsBy rule.statement progress.old self cursor.old result progress.new cursor.new }
    {
        if cursor.begins(&[TerminalKind::Select]) {
            return self.select_statement(alloc, cursor, progress);
        }
        if cursor.begins(&[TerminalKind::Insert]) {
            return self.insert_statement(alloc, cursor, progress);
        }
        if cursor.begins(&[TerminalKind::Update]) {
            return self.update_statement(alloc, cursor, progress);
        }
        self.delete_statement(alloc, cursor, progress)
    }

    /// A statement, perhaps.
    #[tactic(auto, unfolding(crate::specs::Grammar::maybe_statement))]
    fn maybe_statement(
        self,
        alloc: Global,
        cursor: &mut Cursor<'_>,
        progress: &mut Progress,
    ) -> Result<(), Unread>
        ensures { AddsBy rule.maybe_statement progress.old self cursor.old result progress.new cursor.new }
    {
        if !cursor.begins(&STARTS) {
            return Ok(());
        }
        self.statement(alloc, cursor, progress)
    }

    /// A semicolon and perhaps a statement.
    #[tactic(auto, unfolding(crate::specs::Grammar::another_statement))]
    fn another_statement(
        self,
        alloc: Global,
        cursor: &mut Cursor<'_>,
        progress: &mut Progress,
    ) -> Result<(), Unread>
        ensures { AddsBy rule.another_statement progress.old self cursor.old result progress.new cursor.new }
    {
        cursor.take(&[TerminalKind::Semicolon])?;
        self.maybe_statement(alloc, cursor, progress)
    }

    /// More statements behind semicolons.
    fn more_statements(
        self,
        alloc: Global,
        cursor: &mut Cursor<'_>,
        progress: &mut Progress,
    ) -> Result<(), Unread>
        ensures { AddsBy rule.more_statements progress.old self cursor.old result progress.new cursor.new }
    {
        'turns: while cursor.begins(&[TerminalKind::Semicolon]) {
            self.another_statement(alloc, cursor, progress)?;
        }
        Ok(())
    }

    /// The statements of a workload.
    #[tactic(auto, unfolding(crate::specs::Grammar::workload))]
    pub fn workload(
        self,
        alloc: Global,
        cursor: &mut Cursor<'_>,
        progress: &mut Progress,
    ) -> Result<(), Unread>
        ensures { AddsBy rule.workload progress.old self cursor.old result progress.new cursor.new }
    {
        self.maybe_statement(alloc, cursor, progress)?;
        self.more_statements(alloc, cursor, progress)
    }
}
