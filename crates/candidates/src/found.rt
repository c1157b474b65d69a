//! The candidates of a workload.
ghost use Rattle.std.specs.Prelude.{◌≡◌, ◌<◌, ◌≤◌, ◌-◌, ◌+◌, [], IfOk, OnOk, map, take, drop, fold, length, All};
ghost use Rattle.std.specs.List.{flat_map};
ghost use Rattle.adv_base.specs.declared.limits.TheConstants.{MOST_CANDIDATES};
ghost use Rattle.adv_base.specs.Limits.Numbers.{KeyLimits};
ghost use Rattle.adv_base.specs.Named.{NamesWork, NamesShape};
ghost use Rattle.candidates.specs.Candidates as proposed;
ghost use Rattle.candidates.specs.inner.Known as held;

use crate::answer::Candidates;
use crate::known::{Proposal, Target, add_forms};
use crate::proposals::add_proposals;
use adv_base::limits::MOST_CANDIDATES;
use adv_base::{Catalogue, Index, IndexShape, List, NoMemory, Statement, Table};
use indexmap::IndexSet;
use std::alloc::{AllocError, Global};

/// Adds an index that exists, as a plain one.
fn add_index(
    alloc: Global,
    known: &mut IndexSet<Proposal>,
    shape: &IndexShape,
) -> Result<(), AllocError>
    ensures { OnOk result (held.as_proposals known.new.keys
        ≡ proposed.with_proposal [] (held.as_proposals known.old.keys) (proposed.plain_form shape.now)) }
{
    let plain = Target {
        table: shape.table,
        clusterable: false,
    };
    add_forms(alloc, known, plain, shape.keys.as_slice())
}

/// Adds indexes that exist.
fn add_indexes(
    alloc: Global,
    known: &mut IndexSet<Proposal>,
    indexes: &[Index],
) -> Result<(), AllocError>
    ensures { OnOk result (held.as_proposals known.new.keys ≡ held.with_all (held.as_proposals known.old.keys)
        (map (λ index. proposed.plain_form index.shape) indexes.now)) }
{
    'indexes: for index in indexes {
        add_index(alloc, known, &index.shape)?;
    }
    Ok(())
}

/// Adds the indexes of tables.
fn add_tables(
    alloc: Global,
    known: &mut IndexSet<Proposal>,
    tables: &[Table],
) -> Result<(), AllocError>
    ensures { OnOk result (held.as_proposals known.new.keys ≡ held.with_all (held.as_proposals known.old.keys)
        (flat_map (λ table. map (λ index. proposed.plain_form index.shape) table.indexes) tables.now)) }
{
    'tables: for table in tables {
        add_indexes(alloc, known, table.indexes.as_slice())?;
    }
    Ok(())
}

/// Adds the indexes that exist.
#[tactic(auto, unfolding(crate::specs::Candidates::existing_indexes))]
fn add_existing(
    alloc: Global,
    known: &mut IndexSet<Proposal>,
    cat: &Catalogue,
) -> Result<(), AllocError>
    ensures { OnOk result (held.as_proposals known.new.keys
        ≡ held.with_all (held.as_proposals known.old.keys) (proposed.existing_indexes cat.now)) }
{
    add_tables(alloc, known, cat.tables.as_slice())
}

/// A proposal as the shape of an index that isn't unique.
fn shape_of(alloc: Global, proposal: &Proposal) -> Result<IndexShape, AllocError>
    requires { KeyLimits (held.as_proposal proposal.now).keys }
    ensures same { IfOk result (λ shape. proposed.proposal_of shape ≡ held.as_proposal proposal.now) }
    ensures not_unique { IfOk result proposed.IsNotUnique }
{
    Ok(IndexShape {
        table: proposal.table,
        keys: List {
            items: Vec::from_slice(alloc, &proposal.keys)?,
        },
        unique: false,
        clustered: proposal.clustered,
    })
}

/// The shapes of known proposals, from one place up to another.
pub(crate) fn shapes_between(
    alloc: Global,
    known: &IndexSet<Proposal>,
    from: usize,
    to: usize,
) -> Result<List<IndexShape>, AllocError>
    requires order { from ≤ to }
    requires within { to ≤ length known.now.keys }
    requires limits { All (λ p. KeyLimits p.keys) (drop from (held.as_proposals known.now.keys)) }
    ensures same { IfOk result (λ list. map proposed.proposal_of list ≡ take (to - from) (drop from (held.as_proposals known.now.keys))) }
    ensures not_unique { IfOk result (All proposed.IsNotUnique) }
{
    let mut list = Vec::new(alloc);
    'places: for at in from..to {
        list.push(shape_of(alloc, &known[at])?)?;
    }
    Ok(List { items: list })
}

/// The indexes that exist, how many there are, and behind them what the workload proposes.
pub(crate) fn known_proposals(
    alloc: Global,
    cat: &Catalogue,
    statements: &[Statement],
) -> Result<(IndexSet<Proposal>, usize), AllocError>
    ensures fresh { IfOk result (λ r. drop r.1 (held.as_proposals r.0.keys) ≡ proposed.fresh_proposals cat.now statements.now) }
    ensures within { IfOk result (λ r. r.1 ≤ length r.0.keys) }
    ensures existing { IfOk result (λ r. take r.1 (held.as_proposals r.0.keys) ≡ fold (proposed.with_proposal []) [] (proposed.existing_indexes cat.now)) }
{
    let mut known: IndexSet<Proposal> = IndexSet::new(alloc);
    add_existing(alloc, &mut known, cat)?;
    let existing = known.len();
    add_proposals(alloc, &mut known, cat, statements)?;
    Ok((known, existing))
}

/// Proposes indexes for the statements, which name what the catalogue has: the first 256 that they propose and that don't exist
/// yet, plain and, on a table that may be clustered, clustered too. They keep the limits of a setting. The only error is want
/// of memory, of which every list that is proposed takes some.
pub fn candidates(
    alloc: Global,
    cat: &Catalogue,
    statements: &[Statement],
) -> Result<Candidates, NoMemory>
    requires { All (λ statement. NamesWork cat.now statement.work) statements.now }
    ensures list { IfOk result (λ found. map proposed.proposal_of found.list
        ≡ take MOST_CANDIDATES (proposed.fresh_proposals cat.now statements.now)) }
    ensures left_over { IfOk result (λ found. found.left_over
        ≡ length (proposed.fresh_proposals cat.now statements.now) - MOST_CANDIDATES) }
    ensures not_unique { IfOk result (λ found. All proposed.IsNotUnique found.list) }
    ensures few { IfOk result (λ found. length found.list ≤ MOST_CANDIDATES) }
    ensures named { IfOk result (λ found. All (NamesShape cat.now) found.list) }
{
    let (known, existing) = known_proposals(alloc, cat, statements)?;
    let count = known.len() - existing;
    let kept = count.min(MOST_CANDIDATES);
    let list = shapes_between(alloc, &known, existing, existing + kept)?;
    Ok(Candidates {
        list,
        left_over: (count - kept) as u64,
    })
}
