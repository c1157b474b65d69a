//! The proposals that are known so far, each once.
ghost use Rattle.std.specs.Prelude.{◌≡◌, ◌<◌, ◌≤◌, [], ◌∷◌, OnOk, length};
ghost use Rattle.adv_base.specs.declared.limits.TheConstants.{MOST_KEYS};
ghost use Rattle.candidates.specs.Candidates as proposed;
ghost use Rattle.candidates.specs.Columns as columns;
ghost use Rattle.candidates.specs.inner.Known as held;
ghost use Rattle.candidates.specs.Proposals as proposals;

use crate::columns::joined;
use adv_base::limits::MOST_KEYS;
use indexmap::IndexSet;
use std::alloc::{AllocError, Global};

/// An index that is proposed: the number of a table, key columns of it, and whether the table is to be clustered by them.
#[derive(PartialEq, Eq, Hash, Drop)]
pub(crate) struct Proposal {
    pub table: u16,
    pub keys: Vec<u16>,
    pub clustered: bool,
}

/// The number of a table that key lists are proposed for. The forms of a list are a plain index, and where the table is
/// clusterable a clustered one behind it.
#[derive(Clone, Copy)]
pub(crate) struct Target {
    pub table: u16,
    pub clusterable: bool,
}

/// Adds a proposal of 1 to 8 columns, unless it is known.
fn insert_proposal(known: &mut IndexSet<Proposal>, proposal: Proposal) -> Result<(), AllocError>
    requires some { 0 < length proposal.keys.items }
    requires few { length proposal.keys.items ≤ MOST_KEYS }
    ensures { OnOk result (held.as_proposals known.new.keys
        ≡ proposed.with_proposal [] (held.as_proposals known.old.keys) (held.as_proposal proposal)) }
{
    known.insert(proposal)?;
    Ok(())
}

/// Adds a proposal, unless it is empty, has too many columns or is known.
fn add_proposal(known: &mut IndexSet<Proposal>, proposal: Proposal) -> Result<(), AllocError>
    ensures { OnOk result (held.as_proposals known.new.keys
        ≡ proposed.with_proposal [] (held.as_proposals known.old.keys) (held.as_proposal proposal)) }
{
    if proposal.keys.is_empty() || proposal.keys.len() > MOST_KEYS {
        return Ok(());
    }
    insert_proposal(known, proposal)
}

/// Adds a list plain.
fn add_plain(known: &mut IndexSet<Proposal>, table: u16, keys: Vec<u16>) -> Result<(), AllocError>
    ensures { OnOk result (held.as_proposals known.new.keys
        ≡ proposed.with_proposal [] (held.as_proposals known.old.keys) (proposals.plain_index (table, keys.items))) }
{
    add_proposal(
        known,
        Proposal {
            table,
            keys,
            clustered: false,
        },
    )
}

/// Adds a list plain, and then clustered.
fn add_both(
    alloc: Global,
    known: &mut IndexSet<Proposal>,
    table: u16,
    keys: Vec<u16>,
) -> Result<(), AllocError>
    ensures { OnOk result (held.as_proposals known.new.keys
        ≡ held.with_all (held.as_proposals known.old.keys) (proposals.plain_index (table, keys.items) ∷ proposals.clustered_index (table, keys.items) ∷ [])) }
{
    add_plain(known, table, Vec::from_slice(alloc, &keys)?)?;
    add_proposal(
        known,
        Proposal {
            table,
            keys,
            clustered: true,
        },
    )
}

/// Adds the forms of a list followed by another. One that is too long already is not copied.
pub(crate) fn add_joined(
    alloc: Global,
    known: &mut IndexSet<Proposal>,
    target: Target,
    keys: &[u16],
    more: &[u16],
) -> Result<(), AllocError>
    ensures { OnOk result (held.as_proposals known.new.keys
        ≡ held.with_all (held.as_proposals known.old.keys) (proposals.forms target.clusterable (target.table, columns.joined keys.now more.now))) }
{
    if keys.len() > MOST_KEYS {
        return Ok(());
    }
    let list = joined(alloc, keys, more)?;
    if target.clusterable {
        add_both(alloc, known, target.table, list)
    } else {
        add_plain(known, target.table, list)
    }
}

/// Adds the forms of a list.
pub(crate) fn add_forms(
    alloc: Global,
    known: &mut IndexSet<Proposal>,
    target: Target,
    keys: &[u16],
) -> Result<(), AllocError>
    ensures { OnOk result (held.as_proposals known.new.keys
        ≡ held.with_all (held.as_proposals known.old.keys) (proposals.forms target.clusterable (target.table, keys.now))) }
{
    add_joined(alloc, known, target, keys, &[])
}

/// Adds the forms of a column alone.
fn add_single(
    alloc: Global,
    known: &mut IndexSet<Proposal>,
    target: Target,
    column: u16,
) -> Result<(), AllocError>
    ensures { OnOk result (held.as_proposals known.new.keys
        ≡ held.with_all (held.as_proposals known.old.keys) (proposals.forms target.clusterable (target.table, column ∷ []))) }
{
    add_forms(alloc, known, target, &[column])
}

/// Adds the forms of each column alone.
pub(crate) fn add_singles(
    alloc: Global,
    known: &mut IndexSet<Proposal>,
    target: Target,
    columns: &[u16],
) -> Result<(), AllocError>
    ensures { OnOk result (held.as_proposals known.new.keys
        ≡ held.with_forms target.clusterable (held.as_proposals known.old.keys) (proposals.single_lists target.table columns.now)) }
{
    'columns: for column in columns {
        add_single(alloc, known, target, *column)?;
    }
    Ok(())
}

/// Adds the forms of a list followed by a column.
fn add_one_behind(
    alloc: Global,
    known: &mut IndexSet<Proposal>,
    target: Target,
    keys: &[u16],
    column: u16,
) -> Result<(), AllocError>
    ensures { OnOk result (held.as_proposals known.new.keys
        ≡ held.with_all (held.as_proposals known.old.keys) (proposals.forms target.clusterable (target.table, columns.with_column keys.now column))) }
{
    add_joined(alloc, known, target, keys, &[column])
}

/// Adds the forms of a list followed by each of the columns.
pub(crate) fn add_behind(
    alloc: Global,
    known: &mut IndexSet<Proposal>,
    target: Target,
    keys: &[u16],
    columns: &[u16],
) -> Result<(), AllocError>
    ensures { OnOk result (held.as_proposals known.new.keys
        ≡ held.with_forms target.clusterable (held.as_proposals known.old.keys) (proposals.lists_behind target.table keys.now columns.now)) }
{
    'columns: for column in columns {
        add_one_behind(alloc, known, target, keys, *column)?;
    }
    Ok(())
}
