//! The sources of a statement.
ghost use Rattle.std.specs.Prelude.{◌≡◌, ◌<◌, ◌≤◌, ◌+◌, length, IfOk, OnOk, All, unwrap_or};
ghost use Rattle.adv_base.specs.declared.limits.TheConstants.{MOST_SLOTS};
ghost use Rattle.binder.specs.Limits.{IsShort, SourceLimits};
ghost use Rattle.binder.specs.Names.{place};
ghost use Rattle.binder.specs.Faults.{Gives};
ghost use Rattle.binder.specs.Sources as from_clause;

use crate::directory::Directory;
use crate::fault::BindFault;
use crate::names::{is_same_name, name_bytes, word};
use crate::scope::Visible;
use adv_base::limits::MOST_SLOTS;
use adv_base::{List, Name};
use sql_reader::Source;
use sql_tokens::Span;
use std::alloc::{AllocError, Global};

/// The table of a name in a statement.
pub fn table_meant(
    alloc: Global,
    directory: &Directory<'_>,
    text: &[u8],
    span: Span,
) -> Result<u16, BindFault>
    requires { IsShort span }
    ensures exact { Gives (λ t. t) result (from_clause.table_meant directory.now.cat.now text.now span) }
    ensures within { IfOk result (λ t. t < length directory.now.cat.now.tables) }
{
    let word = word(alloc, text, span)?;
    match directory.table(word.as_slice()) {
        Some(table) => Ok(table),
        None => Err(BindFault::NoTable(span.place())),
    }
}

/// The name by which a source goes: its alias, else its table's name.
fn visible_name<'a>(
    directory: &'a Directory<'_>,
    text: &'a [u8],
    alias: Option<Span>,
    table: u16,
) -> &'a [u8]
    requires { table < length directory.now.cat.now.tables }
    ensures { result.now ≡ from_clause.visible_name directory.now.cat.now text.now alias table }
{
    match alias {
        Some(span) => name_bytes(text, span),
        None => {
            let tables = directory.cat.tables.as_slice();
            tables[table as usize].name.as_slice()
        }
    }
}

/// A source as names see it.
pub fn visible(
    alloc: Global,
    directory: &Directory<'_>,
    text: &[u8],
    alias: Option<Span>,
    table: u16,
) -> Result<Visible, AllocError>
    requires { table < length directory.now.cat.now.tables }
    ensures { IfOk result (λ v. v ≡ from_clause.visible directory.now.cat.now text.now alias table) }
{
    let items = Vec::from_slice(alloc, visible_name(directory, text, alias, table))?;
    Ok(Visible {
        name: Name { items },
        table,
    })
}

/// Whether one of these sources goes by a name.
fn is_taken(sources: &[Visible], name: &[u8]) -> bool
    ensures { result ≡ from_clause.is_taken sources.now name.now }
{
    sources
        .iter()
        .any(|v| is_same_name(v.name.as_slice(), name))
}

/// Where the name stands by which a source goes.
fn visible_place(source: Source) -> u64
    requires { SourceLimits source }
    ensures { result ≡ place (unwrap_or source.alias source.table) }
{
    match source.alias {
        Some(span) => span.place(),
        None => source.table.place(),
    }
}

/// Puts a source behind the earlier ones.
#[tactic(auto, unfolding(crate::specs::Sources::with_source))]
fn put_source(
    alloc: Global,
    directory: &Directory<'_>,
    text: &[u8],
    sources: &mut List<Visible>,
    source: Source,
) -> Result<(), BindFault>
    requires { SourceLimits source }
    ensures exact { Gives (λ _. sources.new) result (from_clause.with_source directory.now.cat.now text.now sources.old source) }
    ensures few { OnOk result (length sources.new ≤ MOST_SLOTS) }
    ensures count { OnOk result (length sources.new ≡ length sources.old + 1) }
{
    if sources.len() >= MOST_SLOTS {
        return Err(BindFault::TooManySlots(source.table.place()));
    }
    let table = table_meant(alloc, directory, text, source.table)?;
    let new = visible(alloc, directory, text, source.alias, table)?;
    if is_taken(sources.as_slice(), new.name.as_slice()) {
        return Err(BindFault::TwoAliases(visible_place(source)));
    }
    sources.items.push(new)?;
    Ok(())
}

/// The sources of a SELECT, in order.
pub fn sources(
    alloc: Global,
    directory: &Directory<'_>,
    text: &[u8],
    written: &[Source],
) -> Result<List<Visible>, BindFault>
    requires { All SourceLimits written.now }
    ensures exact { Gives (λ x. x) result (from_clause.sources_of directory.now.cat.now text.now written.now) }
    ensures few { IfOk result (λ x. length x ≤ MOST_SLOTS) }
    ensures count { IfOk result (λ x. length x ≡ length written.now) }
{
    let mut sources = List::new(alloc);
    for source in written {
        put_source(alloc, directory, text, &mut sources, *source)?;
    }
    Ok(sources)
}
