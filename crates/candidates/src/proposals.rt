//! What a workload proposes.
ghost use Rattle.std.specs.Prelude.{◌≡◌, ◌≤◌, [], OnOk, length};
ghost use Rattle.std.specs.List.{list_any, flat_map, enumerate_from};
ghost use Rattle.adv_base.specs.declared.limits.TheConstants.{MOST_SLOTS};
ghost use Rattle.candidates.specs.Candidates as proposed;
ghost use Rattle.candidates.specs.inner.Known as held;
ghost use Rattle.candidates.specs.Proposals as proposals;

use crate::columns::{
    group_columns, join_columns, joined, needed_columns, order_columns, point_columns,
    range_columns,
};
use crate::known::{Proposal, Target, add_behind, add_forms, add_joined, add_singles};
use adv_base::{Block, Catalogue, Index, Slot, Statement, Work, table_at};
use indexmap::IndexSet;
use std::alloc::{AllocError, Global};

/// Whether one of the indexes is clustered.
fn has_clustered(indexes: &[Index]) -> bool
    ensures { result ≡ list_any (λ index. index.shape.clustered) indexes.now }
{
    indexes.iter().any(|index| index.shape.clustered)
}

/// Whether a table may be clustered, and no index of it that exists is.
#[tactic(auto, unfolding(crate::specs::Proposals::is_clusterable))]
fn is_clusterable(cat: &Catalogue, table: u16) -> bool
    ensures { result ≡ proposals.is_clusterable cat.now table }
{
    match table_at(cat, table) {
        Some(table) => table.may_cluster && !has_clustered(table.indexes.as_slice()),
        None => false,
    }
}

/// Adds the columns alone, and those with equality or IN followed by one of the others.
#[tactic(auto, using(crate::proofs::KnownLemmas::forms_one_by_one), unfolding(crate::specs::Proposals::column_lists))]
fn add_columns(
    alloc: Global,
    known: &mut IndexSet<Proposal>,
    target: Target,
    points: &[u16],
    ranges: &[u16],
    joins: &[u16],
) -> Result<(), AllocError>
    ensures { OnOk result (held.as_proposals known.new.keys ≡ held.with_forms target.clusterable (held.as_proposals known.old.keys)
        (proposals.column_lists target.table points.now ranges.now joins.now)) }
{
    add_singles(alloc, known, target, points)?;
    add_singles(alloc, known, target, ranges)?;
    add_singles(alloc, known, target, joins)?;
    add_behind(alloc, known, target, points, ranges)?;
    add_behind(alloc, known, target, points, joins)?;
    Ok(())
}

/// Adds the list to group by, the list to order by, and the latter behind the columns with equality or IN.
#[tactic(auto, using(crate::proofs::KnownLemmas::forms_of_three), unfolding(crate::specs::Proposals::sorted_lists))]
fn add_sorted(
    alloc: Global,
    known: &mut IndexSet<Proposal>,
    target: Target,
    points: &[u16],
    group: &[u16],
    order: &[u16],
) -> Result<(), AllocError>
    ensures { OnOk result (held.as_proposals known.new.keys ≡ held.with_forms target.clusterable (held.as_proposals known.old.keys)
        (proposals.sorted_lists target.table points.now group.now order.now)) }
{
    add_forms(alloc, known, target, group)?;
    add_forms(alloc, known, target, order)?;
    add_joined(alloc, known, target, points, order)?;
    Ok(())
}

/// Adds the columns with equality or IN, the first one with a range test, and the rest of what is needed, plain alone.
#[tactic(auto, unfolding(crate::specs::Proposals::covering_list))]
fn add_covering(
    alloc: Global,
    known: &mut IndexSet<Proposal>,
    table: u16,
    points: &[u16],
    ranges: &[u16],
    needed: &[u16],
) -> Result<(), AllocError>
    ensures { OnOk result (held.as_proposals known.new.keys ≡ proposed.with_proposal [] (held.as_proposals known.old.keys)
        (proposals.plain_index (proposals.covering_list table points.now ranges.now needed.now))) }
{
    let front = joined(alloc, points, &ranges[..ranges.len().min(1)])?;
    let plain = Target {
        table,
        clusterable: false,
    };
    add_joined(alloc, known, plain, &front, needed)?;
    Ok(())
}

/// Adds what a slot of the block proposes.
#[tactic(auto, using(crate::proofs::KnownLemmas::slot_by_parts), unfolding(crate::specs::Proposals::slot_proposals))]
fn add_slot(
    alloc: Global,
    known: &mut IndexSet<Proposal>,
    cat: &Catalogue,
    block: &Block,
    number: u8,
    slot: &Slot,
) -> Result<(), AllocError>
    ensures { OnOk result (held.as_proposals known.new.keys
        ≡ held.with_all (held.as_proposals known.old.keys) (proposals.slot_proposals cat.now block.now number slot.now)) }
{
    let target = Target {
        table: slot.table,
        clusterable: is_clusterable(cat, slot.table),
    };
    let points = point_columns(alloc, block, number)?;
    let ranges = range_columns(alloc, block, number)?;
    let joins = join_columns(alloc, block, number)?;
    let group = group_columns(alloc, block, number)?;
    let order = order_columns(alloc, block, number)?;
    let needed = needed_columns(alloc, cat, slot)?;
    add_columns(alloc, known, target, &points, &ranges, &joins)?;
    add_sorted(alloc, known, target, &points, &group, &order)?;
    add_covering(alloc, known, slot.table, &points, &ranges, &needed)?;
    Ok(())
}

/// Adds what the slots of a block propose.
fn add_slots(
    alloc: Global,
    known: &mut IndexSet<Proposal>,
    cat: &Catalogue,
    block: &Block,
    slots: &[Slot],
) -> Result<(), AllocError>
    requires { length slots.now ≤ MOST_SLOTS }
    ensures { OnOk result (held.as_proposals known.new.keys ≡ held.with_all (held.as_proposals known.old.keys)
        (flat_map (λ numbered. proposals.slot_proposals cat.now block.now numbered.0 numbered.1) (enumerate_from 0 slots.now))) }
{
    'slots: for at in 0..slots.len() {
        add_slot(alloc, known, cat, block, at as u8, &slots[at])?;
    }
    Ok(())
}

/// Adds what a block proposes.
#[tactic(auto, unfolding(crate::specs::Proposals::block_proposals))]
fn add_block(
    alloc: Global,
    known: &mut IndexSet<Proposal>,
    cat: &Catalogue,
    block: &Block,
) -> Result<(), AllocError>
    ensures { OnOk result (held.as_proposals known.new.keys
        ≡ held.with_all (held.as_proposals known.old.keys) (proposals.block_proposals cat.now block.now)) }
{
    add_slots(alloc, known, cat, block, block.slots.as_slice())
}

/// Adds what a statement proposes.
#[tactic(auto, unfolding(crate::specs::Proposals::work_proposals))]
pub(crate) fn add_work(
    alloc: Global,
    known: &mut IndexSet<Proposal>,
    cat: &Catalogue,
    work: &Work,
) -> Result<(), AllocError>
    ensures { OnOk result (held.as_proposals known.new.keys
        ≡ held.with_all (held.as_proposals known.old.keys) (proposals.work_proposals cat.now work.now)) }
{
    match work {
        Work::Select(block) => add_block(alloc, known, cat, block),
        Work::Update(block, _) => add_block(alloc, known, cat, block),
        Work::Delete(block) => add_block(alloc, known, cat, block),
        Work::Insert { .. } => Ok(()),
    }
}

/// Adds what the statements of a workload propose.
#[tactic(auto, unfolding(crate::specs::Proposals::proposals))]
pub(crate) fn add_proposals(
    alloc: Global,
    known: &mut IndexSet<Proposal>,
    cat: &Catalogue,
    statements: &[Statement],
) -> Result<(), AllocError>
    ensures { OnOk result (held.as_proposals known.new.keys
        ≡ held.with_all (held.as_proposals known.old.keys) (proposals.proposals cat.now statements.now)) }
{
    'statements: for at in 0..statements.len() {
        add_work(alloc, known, cat, &statements[at].work)?;
    }
    Ok(())
}
