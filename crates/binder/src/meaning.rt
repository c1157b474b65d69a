//! What names mean among the sources of a statement.
ghost use Rattle.std.specs.Prelude.{◌≡◌, ◌<◌, ◌+◌, ◌∷◌, [], length, drop, IfSome, MatchOption};
ghost use Rattle.binder.specs.Names as spelling;
ghost use Rattle.binder.specs.Limits.{IsShort, NameLimits};
ghost use Rattle.binder.specs.Faults.{Gives};
ghost use Rattle.binder.specs.Scopes as scopes;
ghost use Rattle.binder.specs.View.{names_of};

use crate::fault::BindFault;
use crate::gathered::SlotColumn;
use crate::names::{is_same_name, name_bytes, word};
use crate::scope::{Scope, Visible};
use sql_reader::NameUse;
use sql_tokens::Span;
use std::alloc::Global;

/// The number of the source that goes by a name.
fn find_source(sources: &[Visible], name: &[u8]) -> Option<usize>
    ensures exact { result ≡ scopes.source_number sources.now (spelling.folded name.now) }
    ensures within { IfSome result (λ s. s < length sources.now) }
{
    for (s, v) in sources.iter().enumerate() {
        if is_same_name(v.name.as_slice(), name) {
            return Some(s);
        }
    }
    None
}

/// The source that a name stands for.
pub fn source(scope: &Scope<'_>, span: Span) -> Result<u8, BindFault>
    requires { IsShort span }
    ensures { Gives (λ s. s) result (scopes.source_meant (names_of scope.now) span) }
{
    match find_source(scope.sources.as_slice(), name_bytes(scope.text, span)) {
        Some(s) => Ok(s as u8),
        None => Err(BindFault::NoColumn(span.place())),
    }
}

/// The column of a folded name in a slot.
fn column_of_slot(scope: &Scope<'_>, slot: u8, word: &[u8]) -> Option<u16>
    ensures { result ≡ scopes.column_in (names_of scope.now) slot word.now }
{
    if slot as usize >= scope.sources.len() {
        return None;
    }
    let table = scope.sources.items[slot as usize].table;
    scope.directory.column(table, word)
}

/// The column of a folded name in the first slot from `from` on that has one.
fn owner_from(scope: &Scope<'_>, from: usize, word: &[u8]) -> Option<SlotColumn>
    ensures { let sources = scope.now.sources in let cat = scope.now.directory.now.cat.now in
        MatchOption result (scopes.owners cat from (drop from sources) word.now ≡ [])
        (λ c. scopes.owners cat from (drop from sources) word.now ≡ c ∷ scopes.owners cat (c.slot + 1) (drop (c.slot + 1) sources) word.now) }
{
    for slot in from..scope.sources.len() {
        let table = scope.sources.items[slot].table;
        if let Some(column) = scope.directory.column(table, word) {
            return Some(SlotColumn {
                slot: slot as u8,
                column,
            });
        }
    }
    None
}

/// The column of a name that stands alone.
#[tactic(auto, unfolding(crate::specs::Scopes::unqualified))]
fn unqualified(alloc: Global, scope: &Scope<'_>, name: Span) -> Result<SlotColumn, BindFault>
    requires { IsShort name }
    ensures { Gives (λ c. c) result (scopes.unqualified (names_of scope.now) name) }
{
    let word = word(alloc, scope.text, name)?;
    let Some(first) = owner_from(scope, 0, word.as_slice()) else {
        return Err(BindFault::NoColumn(name.place()));
    };
    match owner_from(scope, first.slot as usize + 1, word.as_slice()) {
        Some(_) => Err(BindFault::Ambiguous(name.place())),
        None => Ok(first),
    }
}

/// The column of a name behind the name of its source.
#[tactic(auto, unfolding(crate::specs::Scopes::qualified))]
fn qualified(
    alloc: Global,
    scope: &Scope<'_>,
    qualifier: Span,
    name: Span,
) -> Result<SlotColumn, BindFault>
    requires qualifier_short { IsShort qualifier }
    requires name_short { IsShort name }
    ensures { Gives (λ c. c) result (scopes.qualified (names_of scope.now) qualifier name) }
{
    let slot = source(scope, qualifier)?;
    let word = word(alloc, scope.text, name)?;
    match column_of_slot(scope, slot, word.as_slice()) {
        Some(column) => Ok(SlotColumn { slot, column }),
        None => Err(BindFault::NoColumn(name.place())),
    }
}

/// The column that a name means.
pub fn meaning(alloc: Global, scope: &Scope<'_>, name: NameUse) -> Result<SlotColumn, BindFault>
    requires { NameLimits name }
    ensures { Gives (λ c. c) result (scopes.meaning (names_of scope.now) name) }
{
    match name.qualifier {
        Some(qualifier) => qualified(alloc, scope, qualifier, name.name),
        None => unqualified(alloc, scope, name.name),
    }
}
